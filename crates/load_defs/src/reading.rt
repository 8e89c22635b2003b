//! What servers keep of definitions, read from them.

ghost use Rattle.std.specs.Prelude.{◌≡◌, ◌<◌, length, map, slice_index_or, [], OnOk, IfOk, IfErr};
ghost use Rattle.std.specs.List.{AllByRecursion};
ghost use Rattle.repl_model.specs.World.{World, server_in};
ghost use Rattle.site_store.specs.Servers.{AllClosed};
ghost use Rattle.site_store.specs.Views.{names, held, work};
ghost use Rattle.site_store.specs.Calls.{Stays, Fails};
ghost use Rattle.world_store.specs.Stands.{Stands};
ghost use Rattle.stored_defs.specs.Rules.{ShowsDamage};
ghost use Rattle.stored_defs.specs.DefinitionReads.{in_defs, server_reads, known_reads};
ghost use Rattle.load_plan.specs.Differences.{IsSpelledServer};
ghost use Rattle.load_laws.specs.planned.Planned.{stored_server, stored_servers};

use keep_core::Keeper;
use load_plan::StoredServer;
use repl_definitions::{DefinedRegistration, DefinedTable, SourceSet, TargetSet};
use repl_types::{Fault, List, Name};
use row_codec::{Table0, Table1, Table2, Table3};
use site_store::Sites;
use std::alloc::{AllocError, Global};
use stored_defs::read_records;

/// A copy of a name.
fn copy_name(name: &Name) -> Result<Name, AllocError>
    ensures { IfOk result (λ copy. copy ≡ name.now) }
{
    name.clone()
}

/// What a server keeps of definitions.
fn read_server<K: Keeper>(
    sites: &mut Sites<K>,
    alloc: Global,
    server: u32,
) -> Result<StoredServer, Fault>
    requires server { server < length (names sites.old) }
    requires closed { AllClosed (work K.kept sites.old) }
    ensures ok { OnOk result (Stays K.kept sites.old sites.new (in_defs server_reads)) }
    ensures stored { IfOk result (λ stored. (w : World)
        → Stands (names sites.old) (held K.kept sites.old) w
        → stored ≡ stored_server (server_in w server)) }
    ensures name { IfOk result (λ stored. stored.name
        ≡ slice_index_or (names sites.old) server []) }
    ensures spelled { IfOk result IsSpelledServer }
    ensures fault { IfErr result (Fails K.kept sites.old sites.new (in_defs server_reads)
        (ShowsDamage K.kept sites.old)) }
{
    let tables = read_records::<K, DefinedTable>(sites, alloc, server, Table0)?;
    let registrations = read_records::<K, DefinedRegistration>(sites, alloc, server, Table1)?;
    let sources = read_records::<K, SourceSet>(sites, alloc, server, Table2)?;
    let targets = read_records::<K, TargetSet>(sites, alloc, server, Table3)?;
    let name = copy_name(sites.name(server))?;
    Ok(StoredServer {
        name,
        tables,
        registrations,
        sources,
        targets,
    })
}

/// What all servers keep of definitions, in their order.
pub fn read_servers<K: Keeper>(
    sites: &mut Sites<K>,
    alloc: Global,
) -> Result<List<StoredServer>, Fault>
    requires closed { AllClosed (work K.kept sites.old) }
    ensures ok { OnOk result (Stays K.kept sites.old sites.new (in_defs known_reads)) }
    ensures stored { IfOk result (λ stored. (w : World)
        → Stands (names sites.old) (held K.kept sites.old) w → stored ≡ stored_servers w) }
    ensures names { IfOk result (λ stored. map (λ s. s.name) stored ≡ names sites.old) }
    ensures spelled { IfOk result (AllByRecursion IsSpelledServer) }
    ensures fault { IfErr result (Fails K.kept sites.old sites.new (in_defs known_reads)
        (ShowsDamage K.kept sites.old)) }
{
    let mut stored = List::new(alloc);
    for server in 0..sites.len() {
        stored.push(read_server(sites, alloc, server)?)?;
    }
    Ok(stored)
}
