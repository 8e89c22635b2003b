//! How large a name, a text, a row of a log record, a stored key and a stored value may be.

/// The most bytes that a name may have.
pub(crate) const NAME_LIMIT: usize = 32;

/// The most bytes that a text may have.
pub const TEXT_LIMIT: usize = 1000;

/// The most values of a row in a log record that a line spells.
pub const ROW_LIMIT: usize = 64;

/// The most bytes that a stored key may have. No key is empty.
pub const KEY_LIMIT: usize = 1024;

/// The most bytes that a stored value may have.
pub const VALUE_LIMIT: usize = 262_144;
