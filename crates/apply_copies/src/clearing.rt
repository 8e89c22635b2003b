//! The rows of a target are removed.

ghost use Rattle.std.specs.Prelude.{◌<◌, length, OnOk, IfOk, IfErr, IfSome};
ghost use Rattle.row_codec.specs.Spelling.{key_spelling};
ghost use Rattle.site_store.specs.Records.{after_key};
ghost use Rattle.site_store.specs.Views.{names, work, IsOpenAt};
ghost use Rattle.site_store.specs.one_server.Calls.{GoesOn, Breaks};
ghost use Rattle.apply_copies.specs.Clearing.{ClearsNext, Clears};
ghost use Rattle.apply_copies.specs.Keys.{IsLaterKey};
ghost use Rattle.apply_copies.specs.Rules.{is_of_load, target_rules};
ghost use Rattle.set_places.specs.Reading.{ReadsOnly};

use keep_core::Keeper;
use repl_records::CopyRow;
use repl_types::{Fault, Row};
use site_store::Sites;
use std::alloc::Global;

/// Removes the first row after a key, or of all if that is `None`, and answers its key, or `None`
/// if there is no such row.
fn clear_next<K: Keeper>(
    sites: &mut Sites<K>,
    alloc: Global,
    target: u32,
    number: u32,
    last: Option<Row>,
) -> Result<Option<Row>, Fault>
    requires server { target < length (names sites.old) }
    requires open { IsOpenAt (work K.kept sites.old) target }
    ensures ok { let after = after_key key_spelling last in
        IfOk result (λ next. GoesOn K.kept sites.old sites.new target
        (ClearsNext number after next)) }
    ensures rises { let after = after_key key_spelling last in
        IfOk result (λ next. IfSome next (IsLaterKey after)) }
    ensures fault { IfErr result (Breaks (target_rules number) K.kept sites.old sites.new target) }
    ensures reads { ReadsOnly is_of_load K.kept sites.old sites.new }
{
    let row = sites.next::<CopyRow>(alloc, target, number, last.as_ref())?;
    let Some((key, _row)) = row else {
        return Ok(None);
    };
    sites.remove::<CopyRow>(alloc, target, number, &key)?;
    Ok(Some(key))
}

/// Removes all rows of the target with a number.
pub fn clear_rows<K: Keeper>(
    sites: &mut Sites<K>,
    alloc: Global,
    target: u32,
    number: u32,
) -> Result<(), Fault>
    requires server { target < length (names sites.old) }
    requires open { IsOpenAt (work K.kept sites.old) target }
    ensures ok { OnOk result (GoesOn K.kept sites.old sites.new target (Clears number)) }
    ensures fault { IfErr result (Breaks (target_rules number) K.kept sites.old sites.new target) }
    ensures reads { ReadsOnly is_of_load K.kept sites.old sites.new }
{
    let mut last = None;
    loop {
        let Some(key) = clear_next(sites, alloc, target, number, last)? else {
            return Ok(());
        };
        last = Some(key);
    }
}
