//! How far the log of a set's source is captured.

ghost use Rattle.std.specs.Prelude.{◌≡◌, OnOk, OnErr, IfOk, IfErr};
ghost use Rattle.site_store.specs.Servers.{AllClosed};
ghost use Rattle.site_store.specs.Views.{work};
ghost use Rattle.site_store.specs.one_server.Calls.{Looks, Breaks};
ghost use Rattle.set_places.specs.Places.{IsPlacedAtSource};
ghost use Rattle.set_places.specs.Members.{ForSource};
ghost use Rattle.set_places.specs.Reading.{ReadsOnly};
ghost use Rattle.subs_sets.specs.Rules.{is_read, source_rules};

use keep_core::Keeper;
use repl_records::{CaptureState, Single};
use repl_types::Fault;
use row_codec::Table0;
use set_places::PlacedSet;
use site_store::Sites;
use std::alloc::Global;

/// What a missing state of capture stands for.
pub const FIRST_CAPTURE: CaptureState = CaptureState {
    captured: 0,
    restart: 1,
    floor: 0,
};

/// The point up to which the log of a set's source is captured.
///
/// After a fault no transaction is open at any server.
pub fn captured_point<K: Keeper>(
    sites: &mut Sites<K>,
    alloc: Global,
    set: &PlacedSet,
) -> Result<u64, Fault>
    requires placed { IsPlacedAtSource K.kept sites.old set.now }
    ensures ok { OnOk result (Looks K.kept sites.old sites.new) }
    ensures point { IfOk result (λ point. ForSource K.kept sites.old set.now (λ w k.
        point ≡ k.source.captured)) }
    ensures fault { IfErr result (Breaks source_rules K.kept sites.old sites.new set.now.source) }
    ensures closed { OnErr result (AllClosed (work K.kept sites.new)) }
    ensures reads { ReadsOnly is_read K.kept sites.old sites.new }
{
    match sites.get_state::<CaptureState>(alloc, set.source, Table0, &Single, FIRST_CAPTURE) {
        Ok(capture) => Ok(capture.captured),
        Err(e) => {
            sites.rollback_all();
            Err(e)
        }
    }
}
