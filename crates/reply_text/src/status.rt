//! What `status` says of a server and of a set.

ghost use Rattle.std.specs.Prelude.{◌≡◌, ◌++◌, OnOk};
ghost use Rattle.reply_text.specs.Status.{registration_line, source_set_line};

use crate::fields::{Field, write_line};
use repl_records::{RegState, SyncMark};
use repl_types::{Name, SetId};
use std::alloc::AllocError;

/// How far a server is. `last` is the last position of its log and `commit` the position of the
/// last commit, at `time`; both are 0 if there is none. Units up to `captured` are captured, a
/// capture reads the log from `restart`, and units up to `floor` are pruned.
#[derive(Clone, Debug, Drop, PartialEq, Eq)]
pub struct ServerStatus {
    pub last: u64,
    pub commit: u64,
    pub time: u64,
    pub captured: u64,
    pub restart: u64,
    pub floor: u64,
}

/// How far a read-only set is. Its targets are copies of the source at `synchpoint`, and were last
/// refreshed at `base`; both are absent before the first refresh. `flag` says that a refresh was
/// asked for. The trail has this number of `entries`, and the source knows of `mark`.
#[derive(Clone, Debug, Drop, PartialEq, Eq)]
pub struct ReadOnlyStatus {
    pub set: SetId,
    pub synchpoint: Option<u64>,
    pub base: Option<u64>,
    pub flag: bool,
    pub entries: u64,
    pub mark: u64,
}

/// How far a replica set is. Master and replica agree at the points `m` of the master and `f` of
/// the replica, which are absent before the load. The master has decided the replica's units up to
/// `t`, and its own up to `d`. The trail has this number of `entries`, and the master knows of
/// `mark`.
#[derive(Clone, Debug, Drop, PartialEq, Eq)]
pub struct ReplicaStatus {
    pub set: SetId,
    pub m: Option<u64>,
    pub f: Option<u64>,
    pub t: u64,
    pub d: u64,
    pub entries: u64,
    pub mark: u64,
}

/// Appends the line of a table's registration.
pub fn write_registration(
    table: &Name,
    state: &RegState,
    out: &mut Vec<u8>,
) -> Result<(), AllocError>
    ensures { OnOk result (out.new.items
        ≡ out.old.items ++ registration_line table.now state.now) }
{
    let name = Field::Name(table);
    let floor = Field::Position(state.floor);
    if state.active {
        write_line("reg", &[name, Field::At("active", state.start), floor], out)
    } else {
        write_line("reg", &[name, Field::Text("inactive"), floor], out)
    }
}

/// Appends the line of a set at its source.
pub fn write_source_set(set: &SetId, known: &SyncMark, out: &mut Vec<u8>) -> Result<(), AllocError>
    ensures { OnOk result (out.new.items
        ≡ out.old.items ++ source_set_line set.now known.now) }
{
    let fields = [
        Field::Set(set),
        Field::At("mark", known.mark),
        Field::At("signal", known.signal),
    ];
    write_line("set", &fields, out)
}
