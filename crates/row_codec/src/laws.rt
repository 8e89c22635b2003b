//! What holds of the spellings that clauses cite. The functions do nothing: their contracts say it.

ghost use Rattle.std.specs.Prelude.{◌≡◌, ◌≤◌, ◌++◌, ◌∷◌, [], ℕ, List, length, pos};
ghost use Rattle.std.specs.List.{sum_by};
ghost use Rattle.repl_types.specs.Bytes.{bytes_cmp};
ghost use Rattle.repl_types.specs.Sizes.{row_limit};
ghost use Rattle.repl_types.specs.ValueText.{IsValue};
ghost use Rattle.repl_types.specs.Value.{Values, value_cmp, key_cmp, images, spelled_len};
ghost use Rattle.repl_types.specs.declared.value.Value.{Value};
ghost use Rattle.repl_types.specs.declared.value.Value.TheVariants.{Null, Int, Text};
ghost use Rattle.repl_types.specs.declared.record.LogRecord.{LogRecord};
ghost use Rattle.row_codec.specs.LogRecords.{IsLogRecord, HasLogSpelling, HasShortRows};
ghost use Rattle.row_codec.specs.LogRecords.{log_spelling};
ghost use Rattle.row_codec.specs.Spelling.{IsCounted, IsKey, IsRow, b16, b32, b64, value_spelling};
ghost use Rattle.row_codec.specs.Spelling.{row_spelling, key_spelling};
ghost use Rattle.row_codec.specs.Storable.{IsStorable};

/// Byte order of spelled keys is the order of keys: column by column, NULL first, then the integers
/// by number, then the texts by bytes. So a map that is kept by bytes is one that is kept by keys
/// in order. Only equal keys have one spelling.
pub fn keys_in_byte_order()
    ensures order { (x y : Values) → IsKey x → IsKey y → bytes_cmp (key_spelling x) (key_spelling y)
        ≡ key_cmp x y }
    ensures of_rows { (places : List ℕ) (x y : Values) → IsKey (images places x)
        → IsKey (images places y) → bytes_cmp (key_spelling (images places x))
        (key_spelling (images places y)) ≡ key_cmp (images places x) (images places y) }
    ensures one { (x y : Values) → IsKey x → IsKey y → key_spelling x ≡ key_spelling y → x ≡ y }
{}

/// How many bytes a spelled key has, as the rule on the length of keys counts them.
pub fn length_of_a_key()
    ensures { (key : Values) → length (key_spelling key) ≡ sum_by spelled_len key }
{}

/// Rows of one spelling are equal.
pub fn one_spelling_of_a_row()
    ensures { (x y : Values) → IsRow x → IsRow y → row_spelling x ≡ row_spelling y → x ≡ y }
{}

/// The row of a log record `insert 1 orders 1 'pen' 20`, worked out by hand.
pub fn worked_row()
    ensures { row_spelling (Int (pos 1) ∷ Text (0x70 ∷ 0x65 ∷ 0x6e ∷ []) ∷ Int (pos 20) ∷ [])
        ≡ 0x00 ∷ 0x03 ∷ 0x01 ∷ 0x80 ∷ 0x00 ∷ 0x00 ∷ 0x00 ∷ 0x00 ∷ 0x00 ∷ 0x00 ∷ 0x01 ∷ 0x02 ∷ 0x70
        ∷ 0x65 ∷ 0x6e ∷ 0x00 ∷ 0x00 ∷ 0x01 ∷ 0x80 ∷ 0x00 ∷ 0x00 ∷ 0x00 ∷ 0x00 ∷ 0x00 ∷ 0x00 ∷ 0x14
        ∷ [] }
{}

/// How many bytes numbers take.
pub fn lengths_of_numbers()
    ensures b16 { (n : ℕ) → length (b16 n) ≡ 2 }
    ensures b32 { (n : ℕ) → length (b32 n) ≡ 4 }
    ensures b64 { (n : ℕ) → length (b64 n) ≡ 8 }
{}

/// A row of at most 64 values may be stored, and so may a log record whose rows have at most 64
/// values: a value takes at most 2,003 bytes, so two such rows take less than a stored value may.
pub fn rows_of_64_values_are_storable()
    ensures row { (row : Values) → IsKey row → length row ≤ row_limit
        → IsStorable IsCounted row_spelling row }
    ensures log_record { (x : LogRecord) → IsLogRecord x → HasShortRows x
        → IsStorable HasLogSpelling log_spelling x }
{}
