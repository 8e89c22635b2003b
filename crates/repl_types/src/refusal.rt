//! Why a line of input is refused, and where.

use crate::name::Name;
use crate::record::SetId;

/// Why a line is refused. Lines are counted from 1.
#[derive(Clone, Debug, Drop, PartialEq, Eq)]
pub enum Refusal {
    /// The first word is no command.
    UnknownCommand {
        line: u64,
    },
    /// The line isn't of its command's form.
    BadLine {
        line: u64,
    },
    /// The line has over 1,048,576 bytes.
    LineTooLong {
        line: u64,
    },
    /// A definition breaks a rule.
    BadDefinition {
        rule: u8,
        place: DefPlace,
    },
    /// An item is stored with other contents.
    DefinitionDiffers(ItemName),
    /// The server isn't among the servers.
    NoSuchServer(Name),
    /// The server has no such table.
    NoSuchTable {
        server: Name,
        table: Name,
    },
    /// No such set is known, or with no name no set of that qualifier.
    NoSuchSet {
        qual: Name,
        name: Option<Name>,
    },
    /// The line is no text of a log record.
    BadLog {
        line: u64,
    },
    /// The log record doesn't fit its table, or what is committed.
    NotApplicable {
        line: u64,
    },
    /// The server's log has no more positions.
    LogFull(Name),
    /// A gap that may not be mended by a refresh.
    RefreshDisabled(GapPlace),
    /// The server isn't captured up to its last commit.
    Behind {
        server: Name,
        captured: u64,
        last: u64,
    },
    /// A limit is passed.
    LimitReached(LimitKind),
}

/// The item of a definition text that breaks a rule, counted from 1.
#[derive(Clone, Copy, Debug, PartialEq, Eq)]
pub enum DefPlace {
    Whole,
    Table(u32),
    Registration(u32),
    Set(u32),
    Member { set: u32, member: u32 },
}

/// A definition by name.
#[derive(Clone, Debug, Drop, PartialEq, Eq)]
pub enum ItemName {
    Table { server: Name, table: Name },
    Registration { server: Name, table: Name },
    Set(SetId),
}

/// Where a set has a gap, or may not be refreshed.
#[derive(Clone, Debug, Drop, PartialEq, Eq)]
pub enum GapPlace {
    Inactive { server: Name, table: Name },
    Above { server: Name, table: Name, seq: u64 },
    Uow { server: Name, seq: u64 },
    Replica(SetId),
}

/// Which limit is passed.
#[derive(Clone, Copy, Debug, PartialEq, Eq)]
pub enum LimitKind {
    Tables,
    Registrations,
    Sets,
    Columns,
    Members,
    LoadBody,
    Definition,
    Generate,
}
