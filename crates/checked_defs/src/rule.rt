//! The rules that `check` asks.

ghost use Rattle.std.specs.Prelude.{◌≡◌};
ghost use Rattle.checked_defs.specs.Broken.{rule_number};

/// A rule of definitions.
#[derive(Clone, Copy, Debug, PartialEq, Eq)]
pub enum Rule {
    /// Names are names.
    Names,
    /// Nothing stands twice.
    Once,
    /// The columns of a table are columns.
    Columns,
    /// A table has a key.
    Key,
    /// A registration's table is defined.
    Table,
    /// After-images fit the table.
    After,
    /// Before-images are among the after-images.
    Before,
    /// A member's source is registered.
    Source,
    /// A member's texts are read.
    Texts,
    /// The rows of a copy may move.
    Copies,
    /// The rows of a condensed table may move.
    Condensed,
    /// Sums stand in aggregates.
    Sums,
    /// Replicas stand alone, each with a table like its own.
    Replicas,
}

impl Rule {
    /// The rules, the lowest first.
    pub const ALL: [Rule; 13] = [
        Rule::Names,
        Rule::Once,
        Rule::Columns,
        Rule::Key,
        Rule::Table,
        Rule::After,
        Rule::Before,
        Rule::Source,
        Rule::Texts,
        Rule::Copies,
        Rule::Condensed,
        Rule::Sums,
        Rule::Replicas,
    ];

    /// The number by which users know the rule.
    pub fn number(self) -> u8
        ensures { result ≡ rule_number self }
    {
        match self {
            Rule::Names => 2,
            Rule::Once => 3,
            Rule::Columns => 4,
            Rule::Key => 5,
            Rule::Table => 6,
            Rule::After => 7,
            Rule::Before => 8,
            Rule::Source => 9,
            Rule::Texts => 10,
            Rule::Copies => 11,
            Rule::Condensed => 12,
            Rule::Sums => 13,
            Rule::Replicas => 14,
        }
    }
}
