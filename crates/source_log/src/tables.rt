//! The tables of changes, each of which is read once for changes of it that follow one another.

ghost use Rattle.std.specs.Prelude.{◌≡◌, ◌<◌, Some, length, OnOk, IfOk, IfErr, IfSome};
ghost use Rattle.site_store.specs.Views.{names, sees};
ghost use Rattle.site_store.specs.one_server.Calls.{Looks, Breaks};
ghost use Rattle.source_log.specs.Rules.{rules, IsKnown, IsTableAt};

use crate::shared_table::SharedTable;
use keep_core::Keeper;
use repl_definitions::DefinedTable;
use repl_types::{Fault, Name};
use row_codec::Table0;
use site_store::Sites;
use std::alloc::{AllocError, Global};

/// The known table, if there is one and it has this name.
pub fn known_at(known: &Option<SharedTable>, name: &Name) -> Result<Option<SharedTable>, AllocError>
    ensures { IfOk result (λ found. IfSome found (λ table. (known.now ≡ Some table)
        × (table.def.name ≡ name.now))) }
{
    let Some(table) = known else {
        return Ok(None);
    };
    if table.get().def.name != *name {
        return Ok(None);
    }
    Ok(Some(table.share()?))
}

/// The table of a name, if the server has it. It isn't read if it is known.
pub fn find_table<K: Keeper>(
    sites: &mut Sites<K>,
    alloc: Global,
    server: u32,
    name: &Name,
    known: &Option<SharedTable>,
) -> Result<Option<SharedTable>, Fault>
    requires server { server < length (names sites.old) }
    ensures ok { OnOk result (Looks K.kept sites.old sites.new) }
    ensures table { IfOk result (λ found. IfSome (sees K.kept sites.old server)
        (λ c. IsKnown known.now c → IsTableAt name.now found c)) }
    ensures fault { IfErr result (Breaks rules K.kept sites.old sites.new server) }
{
    let here = known_at(known, name)?;
    if let Some(shared) = here {
        return Ok(Some(shared));
    }
    let found = sites.get::<DefinedTable>(alloc, server, Table0, name)?;
    let Some(table) = found else {
        return Ok(None);
    };
    let read = SharedTable::new(alloc, table)?;
    Ok(Some(read))
}
