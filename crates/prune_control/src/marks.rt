//! What the source of a set knows of it is read.

ghost use Rattle.std.specs.Prelude.{◌≡◌, OnOk, OnErr, IfOk, IfErr};
ghost use Rattle.repl_records.specs.Prune.{IsMark};
ghost use Rattle.site_store.specs.Servers.{AllClosed};
ghost use Rattle.site_store.specs.Views.{work};
ghost use Rattle.site_store.specs.one_server.Calls.{Looks, Breaks};
ghost use Rattle.set_places.specs.Places.{IsPlacedAtSource};
ghost use Rattle.set_places.specs.Members.{ForSource};
ghost use Rattle.set_places.specs.Reading.{ReadsOnly};
ghost use Rattle.prune_control.specs.Noting.{is_of_marks, mark_rules};

use keep_core::Keeper;
use repl_records::SyncMark;
use repl_types::Fault;
use row_codec::Table0;
use set_places::PlacedSet;
use site_store::Sites;
use std::alloc::Global;

/// The mark of a set and its last signal, as its source has them. It is damage if it has none.
///
/// It reads what the source's open transaction sees, and if none is open, what the source holds.
pub fn read_mark<K: Keeper>(
    sites: &mut Sites<K>,
    alloc: Global,
    set: &PlacedSet,
) -> Result<SyncMark, Fault>
    requires placed { IsPlacedAtSource K.kept sites.old set.now }
    ensures ok { OnOk result (Looks K.kept sites.old sites.new) }
    ensures fits { IfOk result IsMark }
    ensures mark { IfOk result (λ known. ForSource K.kept sites.old set.now (λ w k.
        known ≡ record { mark = k.at_source.mark; signal = k.at_source.signal })) }
    ensures fault { IfErr result (Breaks mark_rules K.kept sites.old sites.new set.now.source) }
    ensures closed { OnErr result (AllClosed (work K.kept sites.new)) }
    ensures reads { ReadsOnly is_of_marks K.kept sites.old sites.new }
{
    let number = set.at_source.number;
    let known = sites.get_needed::<SyncMark>(alloc, set.source, Table0, &number)?;
    Ok(known)
}
