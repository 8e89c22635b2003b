//! The lowest broken rule, and the first item that breaks it.

ghost use Rattle.std.specs.Prelude.{◌≡◌, ◌<◌, ◌^◌, ◌+◌, ◌-◌, IfOk};
ghost use Rattle.std.specs.List.{position_from};
ghost use Rattle.checked_defs.specs.Broken.{all_rules, first_broken as first_broken_lem};
ghost use Rattle.checked_defs.specs.Broken.{table_breaks as table_breaks_lem};
ghost use Rattle.checked_defs.specs.Broken.{registration_breaks as registration_breaks_lem};
ghost use Rattle.checked_defs.specs.Broken.{set_breaks as set_breaks_lem};
ghost use Rattle.checked_defs.specs.Broken.{member_breaks as member_breaks_lem};
ghost use Rattle.checked_defs.specs.Broken.{first_in_set as first_in_set_lem};
ghost use Rattle.checked_defs.specs.Broken.{first_in_sets as first_in_sets_lem};
ghost use Rattle.checked_defs.specs.Broken.{first_place as first_place_lem};

use crate::members::{
    condensed_rows_may_move, copies_may_move, has_texts, has_two_servers, is_source_registered,
    sums_stand_in_aggregates,
};
use crate::names::{member_has_names, registration_has_names, set_has_names, table_has_names};
use crate::once::{
    member_stands_once, registration_stands_once, set_stands_once, table_stands_once,
};
use crate::registrations::{has_after_images, has_before_images, has_table};
use crate::replicas::{is_replica_apart, replicas_stand_alone};
use crate::rule::Rule;
use crate::tables::{has_column_entries, has_key_columns};
use repl_commands::{RawDefs, RawMember, RawRegistration, RawSet, RawTable};
use repl_types::DefPlace;
use spelled_defs::{Context, narrow_place};
use std::alloc::{AllocError, Global};

/// Whether a table of the text breaks a rule.
#[tactic(auto, unfolding(crate::specs::Broken::table_breaks))]
fn table_breaks(
    alloc: Global,
    raw: &RawDefs,
    context: &Context,
    rule: Rule,
    table: &RawTable,
) -> Result<bool, AllocError>
    ensures { IfOk result (λ breaks. breaks
        ≡ table_breaks_lem raw.now context.now rule table.now) }
{
    match rule {
        Rule::Names => Ok(!table_has_names(table)),
        Rule::Once => Ok(!table_stands_once(alloc, raw, context, table)?),
        Rule::Columns => Ok(!has_column_entries(table)),
        Rule::Key => Ok(!has_key_columns(alloc, table)?),
        Rule::Table | Rule::After | Rule::Before => Ok(false),
        Rule::Source | Rule::Texts | Rule::Copies | Rule::Condensed => Ok(false),
        Rule::Sums | Rule::Replicas => Ok(false),
    }
}

/// Whether a registration of the text breaks a rule.
#[tactic(auto, unfolding(crate::specs::Broken::registration_breaks))]
fn registration_breaks(
    alloc: Global,
    raw: &RawDefs,
    context: &Context,
    rule: Rule,
    registration: &RawRegistration,
) -> Result<bool, AllocError>
    ensures { IfOk result (λ breaks. breaks
        ≡ registration_breaks_lem raw.now context.now rule registration.now) }
{
    match rule {
        Rule::Names => Ok(!registration_has_names(registration)),
        Rule::Once => Ok(!registration_stands_once(raw, registration)),
        Rule::Table => Ok(!has_table(context, registration)),
        Rule::After => Ok(!has_after_images(alloc, context, registration)?),
        Rule::Before => Ok(!has_before_images(alloc, context, registration)?),
        Rule::Columns | Rule::Key => Ok(false),
        Rule::Source | Rule::Texts | Rule::Copies | Rule::Condensed => Ok(false),
        Rule::Sums | Rule::Replicas => Ok(false),
    }
}

/// Whether a set of the text breaks a rule.
#[tactic(auto, unfolding(crate::specs::Broken::set_breaks))]
fn set_breaks(raw: &RawDefs, rule: Rule, set: &RawSet) -> bool
    ensures { result ≡ set_breaks_lem raw.now rule set.now }
{
    match rule {
        Rule::Names => !set_has_names(set),
        Rule::Once => !set_stands_once(raw, set),
        Rule::Source => !has_two_servers(set),
        Rule::Replicas => !replicas_stand_alone(set),
        Rule::Columns | Rule::Key => false,
        Rule::Table | Rule::After | Rule::Before => false,
        Rule::Texts | Rule::Copies | Rule::Condensed | Rule::Sums => false,
    }
}

/// Whether a member of a set of the text breaks a rule.
#[tactic(auto, unfolding(crate::specs::Broken::member_breaks))]
fn member_breaks(
    alloc: Global,
    context: &Context,
    rule: Rule,
    set: &RawSet,
    member: &RawMember,
) -> Result<bool, AllocError>
    ensures { IfOk result (λ breaks. breaks
        ≡ member_breaks_lem context.now rule set.now member.now) }
{
    match rule {
        Rule::Names => Ok(!member_has_names(member)),
        Rule::Once => Ok(!member_stands_once(alloc, context, set, member)?),
        Rule::Source => Ok(!is_source_registered(context, set, member)),
        Rule::Texts => Ok(!has_texts(alloc, context, set, member)?),
        Rule::Copies => Ok(!copies_may_move(alloc, context, set, member)?),
        Rule::Condensed => Ok(!condensed_rows_may_move(alloc, context, set, member)?),
        Rule::Sums => Ok(!sums_stand_in_aggregates(alloc, context, set, member)?),
        Rule::Replicas => Ok(!is_replica_apart(alloc, context, set, member)?),
        Rule::Columns | Rule::Key => Ok(false),
        Rule::Table | Rule::After | Rule::Before => Ok(false),
    }
}

/// The number of the item at a place: items are counted from 1.
fn number_at(place: usize) -> Result<u32, AllocError>
    requires { place < 2 ^ 64 - 1 }
    ensures { IfOk result (λ number. number ≡ place + 1) }
{
    narrow_place(place + 1)
}

/// The number of the first table that breaks a rule.
fn first_table(
    alloc: Global,
    raw: &RawDefs,
    context: &Context,
    rule: Rule,
) -> Result<Option<u32>, AllocError>
    ensures { IfOk result (λ number. number
        ≡ position_from (table_breaks_lem raw.now context.now rule) 1 raw.now.tables) }
{
    'tables: for (place, table) in raw.tables.as_slice().iter().enumerate() {
        if table_breaks(alloc, raw, context, rule, table)? {
            return Ok(Some(number_at(place)?));
        }
    }
    Ok(None)
}

/// The number of the first registration that breaks a rule.
fn first_registration(
    alloc: Global,
    raw: &RawDefs,
    context: &Context,
    rule: Rule,
) -> Result<Option<u32>, AllocError>
    ensures { IfOk result (λ number. number
        ≡ position_from (registration_breaks_lem raw.now context.now rule) 1
        raw.now.registrations) }
{
    'registrations: for (place, registration) in raw.registrations.as_slice().iter().enumerate() {
        if registration_breaks(alloc, raw, context, rule, registration)? {
            return Ok(Some(number_at(place)?));
        }
    }
    Ok(None)
}

/// The number of the first member of a set that breaks a rule.
fn first_member(
    alloc: Global,
    context: &Context,
    rule: Rule,
    set: &RawSet,
) -> Result<Option<u32>, AllocError>
    ensures { IfOk result (λ number. number
        ≡ position_from (member_breaks_lem context.now rule set.now) 1 set.now.members) }
{
    'members: for (place, member) in set.members.as_slice().iter().enumerate() {
        if member_breaks(alloc, context, rule, set, member)? {
            return Ok(Some(number_at(place)?));
        }
    }
    Ok(None)
}

/// The place of a rule's first break in a set of this number.
fn first_in_set(
    alloc: Global,
    raw: &RawDefs,
    context: &Context,
    rule: Rule,
    number: u32,
    set: &RawSet,
) -> Result<Option<DefPlace>, AllocError>
    ensures { IfOk result (λ place. place
        ≡ first_in_set_lem raw.now context.now rule number set.now) }
{
    if set_breaks(raw, rule, set) {
        return Ok(Some(DefPlace::Set(number)));
    }
    match first_member(alloc, context, rule, set)? {
        Some(member) => Ok(Some(DefPlace::Member {
            set: number,
            member,
        })),
        None => Ok(None),
    }
}

/// The place of a rule's first break in the sets.
fn first_in_sets(
    alloc: Global,
    raw: &RawDefs,
    context: &Context,
    rule: Rule,
) -> Result<Option<DefPlace>, AllocError>
    ensures { IfOk result (λ place. place
        ≡ first_in_sets_lem raw.now context.now rule 1 raw.now.sets) }
{
    'sets: for (place, set) in raw.sets.as_slice().iter().enumerate() {
        let number = number_at(place)?;
        if let Some(found) = first_in_set(alloc, raw, context, rule, number, set)? {
            return Ok(Some(found));
        }
    }
    Ok(None)
}

/// The place of a rule's first break.
#[tactic(auto, unfolding(crate::specs::Broken::first_place))]
fn first_place(
    alloc: Global,
    raw: &RawDefs,
    context: &Context,
    rule: Rule,
) -> Result<Option<DefPlace>, AllocError>
    ensures { IfOk result (λ place. place ≡ first_place_lem raw.now context.now rule) }
{
    if let Some(number) = first_table(alloc, raw, context, rule)? {
        return Ok(Some(DefPlace::Table(number)));
    }
    if let Some(number) = first_registration(alloc, raw, context, rule)? {
        return Ok(Some(DefPlace::Registration(number)));
    }
    first_in_sets(alloc, raw, context, rule)
}

/// The number of the first of the rules that is broken, and the place of its first break.
fn first_broken(
    alloc: Global,
    raw: &RawDefs,
    context: &Context,
    rules: &[Rule],
) -> Result<Option<(u8, DefPlace)>, AllocError>
    ensures { IfOk result (λ broken. broken
        ≡ first_broken_lem raw.now context.now rules.now) }
{
    'rules: for rule in rules {
        if let Some(place) = first_place(alloc, raw, context, *rule)? {
            return Ok(Some((rule.number(), place)));
        }
    }
    Ok(None)
}

/// The number of the lowest rule that is broken, and the place of its first break.
pub fn find_break(
    alloc: Global,
    raw: &RawDefs,
    context: &Context,
) -> Result<Option<(u8, DefPlace)>, AllocError>
    ensures { IfOk result (λ broken. broken ≡ first_broken_lem raw.now context.now all_rules) }
{
    first_broken(alloc, raw, context, &Rule::ALL)
}
