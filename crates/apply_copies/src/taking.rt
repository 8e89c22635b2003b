//! A target takes the change rows of an interval.

ghost use Rattle.std.specs.Prelude.{◌≡◌, ◌<◌, length, OnOk, OnErr, IfOk, IfErr, IfSome};
ghost use Rattle.repl_types.specs.declared.area.Area.TheVariants as areas;
ghost use Rattle.repl_types.specs.declared.status.DamageCause.TheVariants.{Unfit};
ghost use Rattle.repl_types.specs.declared.fault.Fault.TheVariants.{Damaged};
ghost use Rattle.repl_definitions.specs.Defined.{IsDefinedRegistration, IsDefinedTable};
ghost use Rattle.repl_records.specs.Capture.{change_row_spelling};
ghost use Rattle.repl_records.specs.RecordKeys.{IsChangeKey};
ghost use Rattle.site_store.specs.Calls.{no_access, Reads, ClosesAll, IsMemoryOr};
ghost use Rattle.site_store.specs.Servers.{AllClosed};
ghost use Rattle.site_store.specs.Views.{names, work, sees, IsOpenAt, IsClosedAt};
ghost use Rattle.site_store.specs.one_server.Calls.{Looks, GoesOn, Stops, Breaks};
ghost use Rattle.set_places.specs.Members.{HasRegistration};
ghost use Rattle.set_places.specs.Places.{IsPlacedAtSource};
ghost use Rattle.set_places.specs.Reading.{is_of_definitions, ReadsOnly};
ghost use Rattle.target_steps.specs.Taking.{ReadsCounted};
ghost use Rattle.stored_commits.specs.units.StoredChanges.{stored_change};
ghost use Rattle.cd_tables.specs.laws.SoundChanges.{ChangeRowFits};
ghost use Rattle.apply_copies.specs.ChangeRules.{IsRegisteredIn};
ghost use Rattle.apply_copies.specs.ChangeRules.{change_source_rules, ShowsDamageOfChanges};
ghost use Rattle.apply_copies.specs.Changing.{counted as counted_lem, start_of as start_of_lem};
ghost use Rattle.apply_copies.specs.Changing.{source_as, FindsNext, IsFound, IsLaterChange};
ghost use Rattle.apply_copies.specs.Changing.{TakesNext, TakesAll, ReadsOnce};
ghost use Rattle.apply_copies.specs.Copying.{CanBeCopied};
ghost use Rattle.set_places.specs.Targets.{target_number as target_number_lem};
ghost use Rattle.apply_copies.specs.Taking.{is_of_changes, TakesChanges};

use crate::changing::take_row;
use crate::images::{imaged_row, is_storable};
use crate::source::Source;
use keep_core::Keeper;
use repl_definitions::{DefinedRegistration, DefinedTable, Member, SourceSet};
use repl_records::{CdKey, ChangeRow};
use repl_types::{CdRow, Counts, Fault, Op, ROW_LIMIT, Sequence};
use row_changes::key_of;
use row_codec::Table0;
use set_places::{PlacedSet, read_registration, target_number};
use site_store::Sites;
use std::alloc::Global;

/// The table that a registration is over, with the registration.
fn read_source<K: Keeper>(
    sites: &mut Sites<K>,
    alloc: Global,
    server: u32,
    reg: DefinedRegistration,
) -> Result<Source, Fault>
    requires server { server < length (names sites.old) }
    requires registered { IfSome (sees K.kept sites.old server) (HasRegistration reg) }
    requires fits { IsDefinedRegistration reg }
    ensures ok { OnOk result (Looks K.kept sites.old sites.new) }
    ensures source { IfOk result (λ source. IfSome (sees K.kept sites.old server)
        (IsRegisteredIn source.reg source.table)) }
    ensures fits { IfOk result (λ source. IsDefinedTable source.table) }
    ensures same { IfOk result (λ source. source.reg ≡ reg) }
    ensures fault { IfErr result (Breaks change_source_rules K.kept sites.old sites.new server) }
    ensures reads { ReadsOnly is_of_definitions K.kept sites.old sites.new }
{
    let table = sites.get_needed::<DefinedTable>(alloc, server, Table0, &reg.registration.table)?;
    Ok(Source { reg, table })
}

/// A stored change row with its key as a change row.
fn change_of(key: CdKey, row: ChangeRow) -> CdRow
    ensures { stored_change result ≡ (key, row) }
{
    let ChangeRow { op, after, before } = row;
    CdRow {
        commitseq: key.commitseq,
        intentseq: key.intentseq,
        op,
        after,
        before,
    }
}

/// The first change row of a table after a key, if it is of a unit up to a seq.
fn next_row<K: Keeper>(
    sites: &mut Sites<K>,
    alloc: Global,
    server: u32,
    table: u32,
    after: CdKey,
    upto: u64,
) -> Result<Option<CdRow>, Fault>
    requires { server < length (names sites.old) }
    ensures ok { OnOk result (Reads K.kept sites.old sites.new server areas.Cd) }
    ensures found { IfOk result (λ found. IfSome (sees K.kept sites.old server)
        (FindsNext table after upto found)) }
    ensures from { IfOk result (λ found. IfSome found (IsFound after upto)) }
    ensures fault { IfErr result (Breaks change_source_rules K.kept sites.old sites.new server) }
    ensures reads { ReadsOnly is_of_changes K.kept sites.old sites.new }
{
    let next = sites.next::<ChangeRow>(alloc, server, table, Some(&after))?;
    let Some((key, row)) = next else {
        return Ok(None);
    };
    let change = change_of(key, row);
    if upto < change.commitseq {
        return Ok(None);
    }
    Ok(Some(change))
}

/// The fault of a change row of a row whose key can't be stored.
fn keyless<K: Keeper>(sites: &mut Sites<K>, alloc: Global, server: u32, change: CdRow) -> Fault
    requires { ChangeRowFits change }
    ensures closes { ClosesAll K.kept sites.old sites.new no_access }
    ensures fault { let bytes = change_row_spelling (stored_change change).1 in
        IsMemoryOr (Damaged server areas.Cd (Unfit bytes)) result }
{
    let CdRow {
        commitseq: _seq,
        intentseq: _place,
        op,
        after,
        before,
    } = change;
    let row = ChangeRow { op, after, before };
    sites.unfit::<ChangeRow>(alloc, server, &row)
}

/// Takes the first change row of a table of the source after a key, if it is of a unit up to a seq,
/// and answers its key and its operation, or `None` if there is no such row.
fn take_next<K: Keeper>(
    sites: &mut Sites<K>,
    alloc: Global,
    set: &PlacedSet,
    number: u32,
    source: &Source,
    member: &Member,
    after: CdKey,
    upto: u64,
) -> Result<Option<(CdKey, Op)>, Fault>
    requires source { set.now.source < length (names sites.old) }
    requires target { set.now.target < length (names sites.old) }
    requires open { IsOpenAt (work K.kept sites.old) set.now.target }
    requires member { CanBeCopied member.now }
    requires table { IsDefinedTable source.now.table }
    requires registered { IfSome (sees K.kept sites.old set.now.source)
        (IsRegisteredIn source.now.reg source.now.table) }
    ensures ok { let saw = sees K.kept sites.old set.now.source in
        IfOk result (λ next. GoesOn K.kept sites.old sites.new set.now.target
        (TakesNext saw source.now.reg.number number (source_as source.now) member.now after upto
        next)) }
    ensures rises { IfOk result (λ next. IfSome next (λ n. IsLaterChange after n.0)) }
    ensures fault { IfErr result (Breaks change_source_rules K.kept sites.old sites.new
        set.now.source) }
    ensures reads { ReadsOnly is_of_changes K.kept sites.old sites.new }
    ensures once { OnOk result (ReadsOnce K.kept sites.old sites.new) }
{
    let next = next_row(sites, alloc, set.source, source.reg.number, after, upto)?;
    let Some(change) = next else {
        return Ok(None);
    };
    let row = imaged_row(alloc, &source.table.def, &source.reg.registration, &change)?;
    let key = key_of(alloc, &source.table.def, &row)?;
    if !is_storable(alloc, &key)? {
        return Err(keyless(sites, alloc, set.source, change));
    }
    take_row(
        sites, alloc, set.target, number, source, member, &change, &key, &row,
    )?;
    let own = CdKey {
        commitseq: change.commitseq,
        intentseq: change.intentseq,
    };
    Ok(Some((own, change.op)))
}

/// The counts with one more change row of an operation.
fn counted(op: Op, counts: Counts) -> Counts
    ensures { result ≡ counted_lem op counts }
{
    let mut more = counts;
    match op {
        Op::I => more.inserts = counts.inserts.saturating_add(1),
        Op::U => more.updates = counts.updates.saturating_add(1),
        Op::D => more.deletes = counts.deletes.saturating_add(1),
    }
    more
}

/// The key after which the change rows of the units after a point stand.
fn start_of(point: u64) -> CdKey
    ensures is { result ≡ start_of_lem point }
    ensures fits { IsChangeKey result }
{
    CdKey {
        commitseq: point,
        intentseq: Sequence {
            position: u64::MAX,
            sub: u16::MAX,
        },
    }
}

/// Takes the change rows of a table of the source in an interval, and answers how many there are of
/// each operation.
fn take_changes<K: Keeper>(
    sites: &mut Sites<K>,
    alloc: Global,
    set: &PlacedSet,
    number: u32,
    source: &Source,
    member: &Member,
    from: u64,
    upto: u64,
) -> Result<Counts, Fault>
    requires source { set.now.source < length (names sites.old) }
    requires target { set.now.target < length (names sites.old) }
    requires open { IsOpenAt (work K.kept sites.old) set.now.target }
    requires closed { IsClosedAt (work K.kept sites.old) set.now.source }
    requires member { CanBeCopied member.now }
    requires table { IsDefinedTable source.now.table }
    requires registered { IfSome (sees K.kept sites.old set.now.source)
        (IsRegisteredIn source.now.reg source.now.table) }
    ensures ok { let saw = sees K.kept sites.old set.now.source in
        IfOk result (λ counts. GoesOn K.kept sites.old sites.new set.now.target
        (TakesAll saw source.now.reg.number number (source_as source.now) member.now from upto
        counts)) }
    ensures fault { IfErr result (Breaks change_source_rules K.kept sites.old sites.new
        set.now.source) }
    ensures reads { ReadsOnly is_of_changes K.kept sites.old sites.new }
    ensures counted { IfOk result (ReadsCounted 1 K.kept sites.old sites.new) }
{
    let mut counts = Counts {
        rows: 0,
        inserts: 0,
        updates: 0,
        deletes: 0,
    };
    let mut after = start_of(from);
    loop {
        let next = take_next(sites, alloc, set, number, source, member, after, upto)?;
        let Some((key, op)) = next else {
            return Ok(counts);
        };
        counts = counted(op, counts);
        after = key;
    }
}

/// Takes the target of a member from the copy at one point to the copy at a later one, and answers
/// how many change rows there are of each operation. After a fault a transaction may be open.
fn apply_member<K: Keeper>(
    sites: &mut Sites<K>,
    alloc: Global,
    set: &PlacedSet,
    member: u32,
    from: u64,
    upto: u64,
) -> Result<Counts, Fault>
    requires source { IsPlacedAtSource K.kept sites.old set.now }
    requires target { set.now.target < length (names sites.old) }
    requires member { member < length set.now.at_source.def.members }
    requires open { IsOpenAt (work K.kept sites.old) set.now.target }
    requires closed { IsClosedAt (work K.kept sites.old) set.now.source }
    ensures ok { IfOk result (λ counts. GoesOn K.kept sites.old sites.new set.now.target
        (TakesChanges K.kept sites.old set.now member from upto counts)) }
    ensures fault { let number = target_number_lem set.now.at_target.number member in
        IfErr result (Stops K.kept sites.old sites.new
        (ShowsDamageOfChanges K.kept sites.old set.now number)) }
    ensures reads { ReadsOnly is_of_changes K.kept sites.old sites.new }
    ensures counted { IfOk result (ReadsCounted 1 K.kept sites.old sites.new) }
{
    let reg = read_registration(sites, alloc, set, member)?;
    let own = &set.at_source.def.members.as_slice()[member as usize];
    if own.columns.as_slice().len() > ROW_LIMIT {
        // The registration that was read stands in the area that this fault blames.
        return Err(sites.unfit::<SourceSet>(alloc, set.source, &set.at_source));
    }
    let source = read_source(sites, alloc, set.source, reg)?;
    let number = target_number(set, member);
    let counts = take_changes(sites, alloc, set, number, &source, own, from, upto)?;
    Ok(counts)
}

/// Takes the target of a member of a set from the copy at one point to the copy at a later one, by
/// the change rows between them alone, and answers how many of these there are of each operation.
///
/// A transaction is open at the target, and none at the source. It leaves the transaction open.
/// After a fault no transaction is open at any server.
pub fn apply_rows<K: Keeper>(
    sites: &mut Sites<K>,
    alloc: Global,
    set: &PlacedSet,
    member: u32,
    from: u64,
    upto: u64,
) -> Result<Counts, Fault>
    requires source { IsPlacedAtSource K.kept sites.old set.now }
    requires target { set.now.target < length (names sites.old) }
    requires member { member < length set.now.at_source.def.members }
    requires open { IsOpenAt (work K.kept sites.old) set.now.target }
    requires closed { IsClosedAt (work K.kept sites.old) set.now.source }
    ensures ok { IfOk result (λ counts. GoesOn K.kept sites.old sites.new set.now.target
        (TakesChanges K.kept sites.old set.now member from upto counts)) }
    ensures fault { let number = target_number_lem set.now.at_target.number member in
        IfErr result (Stops K.kept sites.old sites.new
        (ShowsDamageOfChanges K.kept sites.old set.now number)) }
    ensures closed { OnErr result (AllClosed (work K.kept sites.new)) }
    ensures reads { ReadsOnly is_of_changes K.kept sites.old sites.new }
    ensures counted { IfOk result (ReadsCounted 1 K.kept sites.old sites.new) }
{
    match apply_member(sites, alloc, set, member, from, upto) {
        Ok(counts) => Ok(counts),
        Err(e) => {
            sites.rollback_all();
            Err(e)
        }
    }
}
