//! What holds of the definitions that clauses cite. The functions do nothing: their contracts say
//! it.

ghost use Rattle.std.specs.Prelude.{◌≡◌, ℕ, ◌≤◌, ◌<◌, ◌^◌, List};
ghost use Rattle.std.specs.Cmp.{IsTotalOrder};
ghost use Rattle.std.specs.Cmp.Lexicographic.{slice_cmp};
ghost use Rattle.repl_types.specs.contracts.value.ValueOrd.TheImpl.{cmp-value};
ghost use Rattle.std.specs.FinMap.{IsAntisymmetric};
ghost use Rattle.std.specs.Fmt.{decimal};
ghost use Rattle.repl_types.specs.declared.value.Value.{Value};
ghost use Rattle.repl_types.specs.Numbers.{number_of};
ghost use Rattle.repl_types.specs.Value.{key_cmp};
ghost use Rattle.repl_types.specs.ValueText.{value_text, value_of, IsValue};

use crate::value::Value;

/// Keys are in a total order, in which only equal keys tie, and rows are compared in this order.
pub fn keys_in_order()
    ensures total { IsTotalOrder key_cmp }
    ensures exact { IsAntisymmetric key_cmp }
    ensures derived { slice_cmp cmp-value.it ≡ key_cmp }
{}

/// A word that spells a number is the number's decimal, and the decimal spells the number.
pub fn one_spelling_of_a_number()
    ensures found { (low high n : ℕ) (word : List ℕ) → high < 2 ^ 64
        → number_of low high word ≡ Some n → decimal n ≡ word }
    ensures again { (low high n : ℕ) → high < 2 ^ 64 → low ≤ n → n ≤ high
        → number_of low high (decimal n) ≡ Some n }
{}

/// A word that spells a value is the value's text, and the text spells the value.
pub fn one_spelling_of_a_value()
    ensures found { (word : List ℕ) (v : Value) → value_of word ≡ Some v → (value_text v ≡ word)
        × IsValue v }
    ensures again { (v : Value) → IsValue v → value_of (value_text v) ≡ Some v }
{}

/// A value that the program holds is one that has a text, as `again` above asks.
pub fn value_fits(value: &Value)
    ensures { IsValue value.now }
{
    match value {
        Value::Null => {}
        Value::Int(number) => {
            let _number = *number;
        }
        Value::Text(text) => {
            let _text = text.as_str();
        }
    }
}
