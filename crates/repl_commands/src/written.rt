//! Definitions as they are written, in their order: texts that no rule has checked yet.

use repl_types::{Bytes, List};

/// The definitions of one text.
#[derive(Debug, Drop, PartialEq, Eq)]
pub struct RawDefs {
    pub tables: List<RawTable>,
    pub registrations: List<RawRegistration>,
    pub sets: List<RawSet>,
}

/// A table. A column is one text: its name, its kind, and whether it may be NULL.
#[derive(Debug, Drop, PartialEq, Eq)]
pub struct RawTable {
    pub server: Bytes,
    pub name: Bytes,
    pub columns: List<Bytes>,
    pub key: List<Bytes>,
    pub fixed: Option<List<Bytes>>,
}

/// A registration. What is missing is None.
#[derive(Debug, Drop, PartialEq, Eq)]
pub struct RawRegistration {
    pub server: Bytes,
    pub table: Bytes,
    pub after: Option<List<Bytes>>,
    pub before: Option<List<Bytes>>,
    pub del_ins: Option<bool>,
    pub changes_only: Option<bool>,
    pub disable_refresh: Option<bool>,
}

/// A set. What is missing is None.
#[derive(Debug, Drop, PartialEq, Eq)]
pub struct RawSet {
    pub qual: Bytes,
    pub name: Bytes,
    pub source: Bytes,
    pub target: Bytes,
    pub commit_count: Option<u32>,
    pub max_minutes: Option<u32>,
    pub members: List<RawMember>,
}

/// A member of a set. `kind` is what is written as its type, and `filter` what is written as its
/// predicate. A column is one text: its name and its source.
#[derive(Debug, Drop, PartialEq, Eq)]
pub struct RawMember {
    pub source: Bytes,
    pub target: Bytes,
    pub kind: Bytes,
    pub complete: Option<bool>,
    pub condensed: Option<bool>,
    pub columns: Option<List<Bytes>>,
    pub filter: Option<Bytes>,
}
