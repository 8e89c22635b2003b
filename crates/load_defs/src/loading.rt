//! The load of a text.

ghost use Rattle.std.specs.Prelude.{◌≡◌, IfOk, IfErr};
ghost use Rattle.repl_model.specs.World.{World};
ghost use Rattle.site_store.specs.Servers.{AllClosed};
ghost use Rattle.site_store.specs.Views.{names, held, work};
ghost use Rattle.site_store.specs.Calls.{KeepsServers};
ghost use Rattle.world_store.specs.Stands.{Stands};
ghost use Rattle.stored_defs.specs.Rules.{ShowsDamage};
ghost use Rattle.load_laws.specs.texts.Texts.{IsWhole};
ghost use Rattle.load_defs.specs.Counts.{NoneIsNew};
ghost use Rattle.load_defs.specs.Loading.{HasLoaded, HasNotLoaded, BlamesOrRefuses};

use crate::counts::{Loaded, none_is_new};
use crate::plan::plan_load;
use crate::reading::read_servers;
use crate::servers::load_servers;
use keep_core::Keeper;
use repl_commands::RawDefs;
use repl_types::Fault;
use site_store::Sites;
use std::alloc::Global;

/// Loads the definitions of a text at their servers, and answers how many of its items were new. If
/// none was, nothing is changed.
///
/// The text is refused, and nothing is changed, if a rule is broken together with what is known, if
/// it names a server that isn't there, if a limit is passed, or if a definition stands already with
/// other contents; the first of these is answered. After a keeper's fault, or if memory ran out,
/// the first of the commits may have taken place, one at each server that got something new; after
/// damage was found, nothing is changed. What is said of a world holds if the servers stand for one
/// and reveal what they hold.
pub fn load<K: Keeper>(sites: &mut Sites<K>, alloc: Global, raw: &RawDefs) -> Result<Loaded, Fault>
    requires closed { AllClosed (work K.kept sites.old) }
    requires raw { IsWhole raw.now }
    ensures ok { IfOk result (λ loaded. (w : World)
        → Stands (names sites.old) (held K.kept sites.old) w
        → HasLoaded K.kept sites.old sites.new raw.now w loaded) }
    ensures fault { IfErr result (λ e. (w : World)
        → Stands (names sites.old) (held K.kept sites.old) w
        → HasNotLoaded K.kept sites.old sites.new raw.now w e) }
    ensures blames { IfErr result (BlamesOrRefuses K.kept sites.old sites.new
        (ShowsDamage K.kept sites.old)) }
    ensures servers { KeepsServers K.kept sites.old sites.new }
    ensures idle { IfOk result (λ loaded. NoneIsNew loaded
        → held K.kept sites.new ≡ held K.kept sites.old) }
{
    let stored = read_servers(sites, alloc)?;
    let plan = plan_load(alloc, raw, stored.as_slice())?;
    if none_is_new(&plan.loaded) {
        return Ok(plan.loaded);
    }
    load_servers(sites, alloc, &plan.defs, stored.as_slice())?;
    Ok(plan.loaded)
}
