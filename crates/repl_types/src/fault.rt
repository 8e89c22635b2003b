//! What calls over stored contents answer.

use crate::area::Area;
use crate::refusal::Refusal;
use crate::status::DamageCause;
use std::alloc::{AllocError, AllocFailed};
use thiserror::Error;

/// Why a call failed. Servers are named by their place, counted from 0. After a fault no
/// transaction is open, and each server holds what its last commit left, or what a commit left that
/// failed but took place.
#[derive(Clone, Debug, Drop, PartialEq, Eq, Error)]
pub enum Fault {
    #[error("out of memory")]
    Memory,
    #[error("the keeper of server {server} failed")]
    Keeper {
        server: u32,
    },
    #[error("server {server} holds damaged records")]
    Damaged {
        server: u32,
        area: Area,
        cause: DamageCause,
    },
    #[error("refused")]
    Refused(Refusal),
}

impl From<AllocError> for Fault {
    ghost use Rattle.std.specs.Prelude.{◌≡◌};
    ghost use Rattle.repl_types.specs.declared.fault.Fault.TheVariants.{Memory};

    ghost from_gives = { λ _ e. e ≡ Memory };

    fn from(_: AllocError) -> Fault {
        Fault::Memory
    }
}

impl<T: Drop> From<AllocFailed<T>> for Fault {
    ghost use Rattle.std.specs.Prelude.{◌≡◌};
    ghost use Rattle.repl_types.specs.declared.fault.Fault.TheVariants.{Memory};

    ghost from_gives = { λ _ e. e ≡ Memory };

    fn from(_: AllocFailed<T>) -> Fault {
        Fault::Memory
    }
}

/// How many rows a call put, inserted, updated and deleted.
#[derive(Clone, Copy, Debug, PartialEq, Eq)]
pub struct Counts {
    pub rows: u64,
    pub inserts: u64,
    pub updates: u64,
    pub deletes: u64,
}

/// What a step of a set did. Points are positions of the log.
#[derive(Clone, Copy, Debug, PartialEq, Eq)]
pub enum Stepped {
    Signal {
        server: u32,
        seq: u64,
    },
    Refresh {
        point: u64,
        rows: u64,
    },
    Block {
        from: u64,
        to: u64,
        inserts: u64,
        updates: u64,
        deletes: u64,
    },
    Report {
        point: u64,
    },
    Load {
        m: u64,
        f: u64,
        rows: u64,
    },
    Decide {
        t: u64,
        d: u64,
        accepted: u64,
        rejected: u64,
    },
    Settle {
        m: u64,
        f: u64,
        rejected: u64,
        applied: u64,
    },
    Idle,
}
