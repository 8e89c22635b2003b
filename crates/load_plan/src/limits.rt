//! Which limit on counts a load of definitions passes.

ghost use Rattle.std.specs.Prelude.{◌≡◌, ◌+◌, nat_lt, length, count_by};
ghost use Rattle.std.specs.List.{list_any};
ghost use Rattle.repl_model.specs.SoundDefinitions.{set_limit, column_limit};
ghost use Rattle.load_plan.specs.Limits.{gets_table as gets_table_lem};
ghost use Rattle.load_plan.specs.Limits.{gets_source as gets_source_lem};
ghost use Rattle.load_plan.specs.Limits.{gets_target as gets_target_lem};
ghost use Rattle.load_plan.specs.Limits.{has_many_tables as has_many_tables_lem};
ghost use Rattle.load_plan.specs.Limits.{has_many_sets as has_many_sets_lem};
ghost use Rattle.load_plan.specs.Limits.{has_wide_target as has_wide_target_lem};
ghost use Rattle.load_plan.specs.Limits.{has_many_columns as has_many_columns_lem};
ghost use Rattle.load_plan.specs.Limits.{has_many_members as has_many_members_lem};
ghost use Rattle.load_plan.specs.Limits.{passed_limit as passed_limit_lem};

use crate::stored::{StoredServer, same_name, source_at, table_at, target_at};
use repl_definitions::SetDef;
use repl_types::LimitKind;
use spelled_defs::{Defs, TableAt};

/// The most tables of a server.
pub const TABLE_LIMIT: usize = 256;

/// The most sets of a server at each of its two sides.
pub const SET_LIMIT: usize = 256;

/// The most columns of a table or of a target.
pub const COLUMN_LIMIT: usize = 64;

/// The most members of a set.
pub const MEMBER_LIMIT: usize = 64;

/// Whether a server gets a table of a text.
pub fn gets_table(server: &StoredServer, table: &TableAt) -> bool
    ensures { result ≡ gets_table_lem server.now table.now }
{
    same_name(&table.server, &server.name) && table_at(&table.def.name, server).is_none()
}

/// Whether a server gets a set of a text as its source.
pub fn gets_source(server: &StoredServer, set: &SetDef) -> bool
    ensures { result ≡ gets_source_lem server.now set.now }
{
    same_name(&set.source, &server.name) && source_at(&set.id, server).is_none()
}

/// Whether a server gets a set of a text as its target.
pub fn gets_target(server: &StoredServer, set: &SetDef) -> bool
    ensures { result ≡ gets_target_lem server.now set.now }
{
    same_name(&set.target, &server.name) && target_at(&set.id, server).is_none()
}

/// Whether a server would have more tables than it may.
fn has_many_tables(defs: &Defs, server: &StoredServer) -> bool
    ensures { result ≡ has_many_tables_lem defs.now server.now }
{
    let gained = defs
        .tables
        .as_slice()
        .iter()
        .filter(|table| gets_table(server, table))
        .count();
    server.tables.len() + gained > TABLE_LIMIT
}

/// Whether a server would be the source of more sets than it may.
fn has_many_sources(defs: &Defs, server: &StoredServer) -> bool
    ensures { result ≡ nat_lt set_limit (length server.now.sources
        + count_by (gets_source_lem server.now) defs.now.sets) }
{
    let gained = defs
        .sets
        .as_slice()
        .iter()
        .filter(|set| gets_source(server, set))
        .count();
    server.sources.len() + gained > SET_LIMIT
}

/// Whether a server would be the target of more sets than it may.
fn has_many_targets(defs: &Defs, server: &StoredServer) -> bool
    ensures { result ≡ nat_lt set_limit (length server.now.targets
        + count_by (gets_target_lem server.now) defs.now.sets) }
{
    let gained = defs
        .sets
        .as_slice()
        .iter()
        .filter(|set| gets_target(server, set))
        .count();
    server.targets.len() + gained > SET_LIMIT
}

/// Whether a server would be the source, or the target, of more sets than it may.
fn has_many_sets(defs: &Defs, server: &StoredServer) -> bool
    ensures { result ≡ has_many_sets_lem defs.now server.now }
{
    has_many_sources(defs, server) || has_many_targets(defs, server)
}

/// Whether a target of a set has more columns than it may.
fn has_wide_target(set: &SetDef) -> bool
    ensures { result ≡ has_wide_target_lem set.now }
{
    set.members
        .as_slice()
        .iter()
        .any(|member| member.columns.len() > COLUMN_LIMIT)
}

/// Whether a table of a text has more columns than it may.
fn has_wide_table(tables: &[TableAt]) -> bool
    ensures { result ≡ list_any (λ t. nat_lt column_limit (length t.def.columns)) tables.now }
{
    tables
        .iter()
        .any(|table| table.def.columns.len() > COLUMN_LIMIT)
}

/// Whether a set of a text has a target with more columns than it may.
fn has_wide_set(sets: &[SetDef]) -> bool
    ensures { result ≡ list_any has_wide_target_lem sets.now }
{
    sets.iter().any(|set| has_wide_target(set))
}

/// Whether a table or a target of a text has more columns than it may.
fn has_many_columns(defs: &Defs) -> bool
    ensures { result ≡ has_many_columns_lem defs.now }
{
    has_wide_table(defs.tables.as_slice()) || has_wide_set(defs.sets.as_slice())
}

/// Whether a set of a text has more members than it may.
fn has_many_members(defs: &Defs) -> bool
    ensures { result ≡ has_many_members_lem defs.now }
{
    defs.sets
        .as_slice()
        .iter()
        .any(|set| set.members.len() > MEMBER_LIMIT)
}

/// Whether one of the servers would have more tables than it may.
fn has_full_tables(defs: &Defs, stored: &[StoredServer]) -> bool
    ensures { result ≡ list_any (has_many_tables_lem defs.now) stored.now }
{
    stored.iter().any(|server| has_many_tables(defs, server))
}

/// Whether one of the servers would be the source, or the target, of more sets than it may.
fn has_full_sets(defs: &Defs, stored: &[StoredServer]) -> bool
    ensures { result ≡ list_any (has_many_sets_lem defs.now) stored.now }
{
    stored.iter().any(|server| has_many_sets(defs, server))
}

/// The first limit on counts that a load passes.
#[tactic(auto, unfolding(crate::specs::Limits::passed_limit))]
pub fn passed_limit(defs: &Defs, stored: &[StoredServer]) -> Option<LimitKind>
    ensures { result ≡ passed_limit_lem defs.now stored.now }
{
    if has_full_tables(defs, stored) {
        return Some(LimitKind::Tables);
    }
    if has_full_sets(defs, stored) {
        return Some(LimitKind::Sets);
    }
    if has_many_columns(defs) {
        return Some(LimitKind::Columns);
    }
    if has_many_members(defs) {
        return Some(LimitKind::Members);
    }
    None
}
