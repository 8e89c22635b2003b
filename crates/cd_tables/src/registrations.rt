//! The registration of a table and its state, as they are stored.

ghost use Rattle.std.specs.Prelude.{◌≡◌, ◌<◌, length, OnOk, IfOk, IfErr, IfSome};
ghost use Rattle.repl_records.specs.Capture.{IsRegistrationState};
ghost use Rattle.site_store.specs.Views.{names, sees};
ghost use Rattle.site_store.specs.one_server.Calls.{Looks, Breaks};
ghost use Rattle.cd_tables.specs.Reading.{ReadsNoLog};
ghost use Rattle.cd_tables.specs.Rules.{rules, is_of_table as is_of_table_lem, FindsRegistration};
ghost use Rattle.cd_tables.specs.Rules.{HasStateOf, IsRegistrationOf, IsRegistrationIn};

use keep_core::Keeper;
use repl_definitions::DefinedRegistration;
use repl_records::RegState;
use repl_types::{Fault, Name};
use row_codec::Table1;
use site_store::Sites;
use std::alloc::Global;

/// The most columns of a registration.
const COLUMN_LIMIT: usize = 64;

/// Whether a registration is one of the table of this name, and its change rows can be stored.
fn is_of_table(name: &Name, reg: &DefinedRegistration) -> bool
    ensures { result ≡ is_of_table_lem name.now reg.now }
{
    reg.registration.table == *name
        && reg.registration.after.len() <= COLUMN_LIMIT
        && reg.registration.before.len() <= COLUMN_LIMIT
}

/// The registration of the table of a name, if it has one.
pub fn read_registration<K: Keeper>(
    sites: &mut Sites<K>,
    alloc: Global,
    server: u32,
    name: &Name,
) -> Result<Option<DefinedRegistration>, Fault>
    requires { server < length (names sites.old) }
    ensures ok { OnOk result (Looks K.kept sites.old sites.new) }
    ensures found { IfOk result (λ found. IfSome (sees K.kept sites.old server)
        (FindsRegistration name.now found)) }
    ensures fits { IfOk result (λ found. IfSome found (IsRegistrationOf name.now)) }
    ensures fault { IfErr result (Breaks rules K.kept sites.old sites.new server) }
    ensures reads { ReadsNoLog K.kept sites.old sites.new }
{
    let found = sites.get::<DefinedRegistration>(alloc, server, Table1, name)?;
    let Some(reg) = found else {
        return Ok(None);
    };
    if !is_of_table(name, &reg) {
        return Err(sites.unfit::<DefinedRegistration>(alloc, server, &reg));
    }
    Ok(Some(reg))
}

/// The state of a registration, which stands under its number.
pub fn read_state<K: Keeper>(
    sites: &mut Sites<K>,
    alloc: Global,
    server: u32,
    name: &Name,
    reg: &DefinedRegistration,
) -> Result<RegState, Fault>
    requires server { server < length (names sites.old) }
    requires found { IfSome (sees K.kept sites.old server) (IsRegistrationIn name.now reg.now) }
    ensures ok { OnOk result (Looks K.kept sites.old sites.new) }
    ensures state { IfOk result (λ state. IfSome (sees K.kept sites.old server)
        (HasStateOf reg.now state)) }
    ensures fits { IfOk result IsRegistrationState }
    ensures fault { IfErr result (Breaks rules K.kept sites.old sites.new server) }
    ensures reads { ReadsNoLog K.kept sites.old sites.new }
{
    let state = sites.get_needed::<RegState>(alloc, server, Table1, &reg.number)?;
    Ok(state)
}
