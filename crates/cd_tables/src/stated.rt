//! A registration with its state, which are read once for changes of one table that follow one
//! another in a unit.

ghost use Rattle.std.specs.Prelude.{◌≡◌, ◌<◌, length, OnOk, IfOk, IfErr, IfSome};
ghost use Rattle.site_store.specs.Views.{names, sees};
ghost use Rattle.site_store.specs.one_server.Calls.{Looks, Breaks};
ghost use Rattle.cd_tables.specs.Known.{IsStated, IsStatedOf, IsFoundAt, IsKnown};
ghost use Rattle.cd_tables.specs.Known.{known_after as known_after_lem};
ghost use Rattle.cd_tables.specs.Reading.{ReadsNoLog};
ghost use Rattle.cd_tables.specs.Rules.{rules};

use crate::registrations::{read_registration, read_state};
use keep_core::Keeper;
use repl_definitions::DefinedRegistration;
use repl_records::RegState;
use repl_types::{Change, Fault, Name};
use site_store::Sites;
use std::alloc::Global;

/// A registration, and the state that stands under its number.
#[derive(Drop)]
pub struct StatedRegistration {
    pub reg: DefinedRegistration,
    pub state: RegState,
}

/// The known registration, if there is one and it is of the table of this name.
fn known_at(known: Option<StatedRegistration>, name: &Name) -> Option<StatedRegistration>
    ensures { IfSome result (λ at. (known ≡ Some at) × (at.reg.registration.table ≡ name.now)) }
{
    let Some(at) = known else {
        return None;
    };
    if at.reg.registration.table != *name {
        return None;
    }
    Some(at)
}

/// The registration of the table of a name with its state, if it has one. They aren't read if they
/// are known.
pub fn find_registration<K: Keeper>(
    sites: &mut Sites<K>,
    alloc: Global,
    server: u32,
    name: &Name,
    known: Option<StatedRegistration>,
) -> Result<Option<StatedRegistration>, Fault>
    requires server { server < length (names sites.old) }
    requires fits { IfSome known IsStated }
    ensures ok { OnOk result (Looks K.kept sites.old sites.new) }
    ensures found { IfOk result (λ found. IfSome (sees K.kept sites.old server)
        (λ c. IsKnown known c → IsFoundAt name.now found c)) }
    ensures fits { IfOk result (λ found. IfSome found (IsStatedOf name.now)) }
    ensures fault { IfErr result (Breaks rules K.kept sites.old sites.new server) }
    ensures reads { ReadsNoLog K.kept sites.old sites.new }
{
    let here = known_at(known, name);
    if let Some(at) = here {
        return Ok(Some(at));
    }
    let found = read_registration(sites, alloc, server, name)?;
    let Some(reg) = found else {
        return Ok(None);
    };
    let state = read_state(sites, alloc, server, name, &reg)?;
    Ok(Some(StatedRegistration { reg, state }))
}

/// What is known after a change of this registration's table: the same, unless the change starts or
/// stops it.
pub fn known_after(change: &Change, at: StatedRegistration) -> Option<StatedRegistration>
    ensures { result ≡ known_after_lem change.now at }
{
    match change {
        Change::Insert { .. } | Change::Update { .. } | Change::Delete { .. } => Some(at),
        Change::Start { .. } | Change::Stop { .. } => None,
    }
}
