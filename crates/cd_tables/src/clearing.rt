//! The change rows of a registration are removed.

ghost use Rattle.std.specs.Prelude.{◌<◌, length, OnOk, IfOk, IfErr, IfSome};
ghost use Rattle.repl_records.specs.RecordKeys.{change_key_spelling};
ghost use Rattle.site_store.specs.Records.{after_key};
ghost use Rattle.site_store.specs.Views.{names, work, IsOpenAt};
ghost use Rattle.site_store.specs.one_server.Calls.{GoesOn, Breaks};
ghost use Rattle.stored_commits.specs.units.StoredChanges.{with_cleared};
ghost use Rattle.cd_tables.specs.Reading.{ReadsNoLog};
ghost use Rattle.cd_tables.specs.Rules.{rules};
ghost use Rattle.cd_tables.specs.Clearing.{ClearsNext, IsCleared};
ghost use Rattle.cd_tables.specs.Appending.{Becomes};

use keep_core::Keeper;
use repl_records::{CdKey, ChangeRow};
use repl_types::Fault;
use site_store::Sites;
use std::alloc::Global;

/// Removes the first change row after a key, or of all if that is `None`, and answers its key, or
/// `None` if there is no such row.
fn clear_next<K: Keeper>(
    sites: &mut Sites<K>,
    alloc: Global,
    server: u32,
    number: u32,
    last: Option<CdKey>,
) -> Result<Option<CdKey>, Fault>
    requires server { server < length (names sites.old) }
    requires open { IsOpenAt (work K.kept sites.old) server }
    ensures ok { let after = after_key change_key_spelling last in
        IfOk result (λ next. GoesOn K.kept sites.old sites.new server
        (ClearsNext number after next)) }
    ensures rises { let after = after_key change_key_spelling last in
        IfOk result (λ next. IfSome next (IsCleared after)) }
    ensures fault { IfErr result (Breaks rules K.kept sites.old sites.new server) }
    ensures reads { ReadsNoLog K.kept sites.old sites.new }
{
    let row = sites.next::<ChangeRow>(alloc, server, number, last.as_ref())?;
    let Some((key, _row)) = row else {
        return Ok(None);
    };
    sites.remove::<ChangeRow>(alloc, server, number, &key)?;
    Ok(Some(key))
}

/// Removes all change rows of the registration with a number.
pub fn clear_changes<K: Keeper>(
    sites: &mut Sites<K>,
    alloc: Global,
    server: u32,
    number: u32,
) -> Result<(), Fault>
    requires server { server < length (names sites.old) }
    requires open { IsOpenAt (work K.kept sites.old) server }
    ensures ok { OnOk result (GoesOn K.kept sites.old sites.new server
        (Becomes (with_cleared number))) }
    ensures fault { IfErr result (Breaks rules K.kept sites.old sites.new server) }
    ensures reads { ReadsNoLog K.kept sites.old sites.new }
{
    let mut last = None;
    loop {
        let Some(key) = clear_next(sites, alloc, server, number, last)? else {
            return Ok(());
        };
        last = Some(key);
    }
}
