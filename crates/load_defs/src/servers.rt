//! Definitions are put at their servers, with one commit at each server that gets something new.

ghost use Rattle.std.specs.Prelude.{◌≡◌, ◌⊎◌, ◌<◌, suc, map, length, OnOk, IfErr, OnErr};
ghost use Rattle.std.specs.List.{AllByRecursion};
ghost use Rattle.repl_types.specs.declared.fault.Fault.TheVariants.{Keeper};
ghost use Rattle.repl_commands.specs.declared.written.RawDefs.{RawDefs};
ghost use Rattle.repl_model.specs.World.{World};
ghost use Rattle.site_store.specs.Servers.{AllClosed};
ghost use Rattle.site_store.specs.Views.{names, held, work};
ghost use Rattle.site_store.specs.Calls.{KeepsServers, Blames, HoldsOrInDoubt};
ghost use Rattle.world_store.specs.Stands.{Stands};
ghost use Rattle.load_laws.specs.worlds.Loads.{load_first, server_at};
ghost use Rattle.load_laws.specs.planned.Planned.{stored_server, stored_servers};
ghost use Rattle.load_laws.specs.planned.PlannedLoads.{adds_nothing as adds_nothing_lem};
ghost use Rattle.load_defs.specs.Putting.{CanBeLoaded};
ghost use Rattle.load_defs.specs.Loading.{MayLoad, load_commits, AllHappened, SomeHappened};

use crate::putting::put_added;
use crate::rows::added_rows;
use keep_core::Keeper;
use load_plan::{Additions, StoredServer, additions_at};
use repl_types::Fault;
use site_store::Sites;
use spelled_defs::Defs;
use std::alloc::Global;

/// Whether a server gets nothing.
fn adds_nothing(added: &Additions) -> bool
    ensures { result ≡ adds_nothing_lem added.now }
{
    added.tables.is_empty()
        && added.registrations.is_empty()
        && added.sources.is_empty()
        && added.targets.is_empty()
}

/// Puts what a server gets, in one commit, if the servers before it are loaded. A server that gets
/// nothing isn't touched. After a fault nothing was put; but after one of this server's keeper it
/// may have been.
fn load_server<K: Keeper>(
    sites: &mut Sites<K>,
    alloc: Global,
    server: u32,
    defs: &Defs,
    stored: &StoredServer,
) -> Result<(), Fault>
    requires server { server < length (names sites.old) }
    requires closed { AllClosed (work K.kept sites.old) }
    requires loads { CanBeLoaded defs.now stored.now }
    ensures ok { OnOk result ((raw : RawDefs) (w : World) → MayLoad raw w defs.now
        → stored.now ≡ stored_server (server_at w server)
        → Stands (names sites.old) (held K.kept sites.old) (load_first defs.now server w)
        → Stands (names sites.old) (held K.kept sites.new) (load_first defs.now (suc server) w)) }
    ensures fault { IfErr result (λ e. (raw : RawDefs) (w : World) → MayLoad raw w defs.now
        → stored.now ≡ stored_server (server_at w server)
        → Stands (names sites.old) (held K.kept sites.old) (load_first defs.now server w)
        → Stands (names sites.old) (held K.kept sites.new) (load_first defs.now server w)
        ⊎ ((e ≡ Keeper server)
        × Stands (names sites.old) (held K.kept sites.new) (load_first defs.now (suc server) w))) }
    ensures held { IfErr result (HoldsOrInDoubt K.kept sites.old sites.new) }
    ensures blames { IfErr result (Blames K.kept sites.old sites.new (λ s a cause. ⊥)) }
    ensures servers { KeepsServers K.kept sites.old sites.new }
{
    let added = additions_at(alloc, defs, stored)?;
    if adds_nothing(&added) {
        return Ok(());
    }
    let rows = added_rows(alloc, &added)?;
    sites.begin(server)?;
    put_added(sites, alloc, server, &rows)?;
    sites.commit(server)?;
    Ok(())
}

/// Puts what each server gets, in the order of the servers, with one commit at each that gets
/// something new. After a fault only the first of these commits took place.
pub fn load_servers<K: Keeper>(
    sites: &mut Sites<K>,
    alloc: Global,
    defs: &Defs,
    stored: &[StoredServer],
) -> Result<(), Fault>
    requires closed { AllClosed (work K.kept sites.old) }
    requires servers { map (λ s. s.name) stored.now ≡ names sites.old }
    requires loads { AllByRecursion (CanBeLoaded defs.now) stored.now }
    ensures ok { OnOk result ((raw : RawDefs) (w : World) → MayLoad raw w defs.now
        → stored.now ≡ stored_servers w → Stands (names sites.old) (held K.kept sites.old) w
        → AllHappened K.kept sites.old sites.new (load_commits defs.now) w) }
    ensures stopped { OnErr result ((raw : RawDefs) (w : World) → MayLoad raw w defs.now
        → stored.now ≡ stored_servers w → Stands (names sites.old) (held K.kept sites.old) w
        → SomeHappened K.kept sites.old sites.new (load_commits defs.now) w) }
    ensures blames { IfErr result (Blames K.kept sites.old sites.new (λ s a cause. ⊥)) }
    ensures servers { KeepsServers K.kept sites.old sites.new }
{
    for server in 0..sites.len() {
        load_server(sites, alloc, server, defs, &stored[server as usize])?;
    }
    Ok(())
}
