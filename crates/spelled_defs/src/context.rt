//! The definitions that stand beside a text.

use crate::defs::{RegistrationAt, TableAt};
use repl_types::{Bytes, List};

/// A member of a set, as a link between the table that it copies and its target.
#[derive(Debug, Drop)]
pub struct Link {
    pub source_server: Bytes,
    pub source: Bytes,
    pub target_server: Bytes,
    pub target: Bytes,
    pub is_replica: bool,
}

/// What the items of a text are asked together with: the definitions of the text, and the known
/// ones whose names don't stand in it.
#[derive(Debug, Drop)]
pub struct Context {
    pub tables: List<TableAt>,
    pub registrations: List<RegistrationAt>,
    pub links: List<Link>,
}
