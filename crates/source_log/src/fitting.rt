//! Which changes may stand in a log.

ghost use Rattle.std.specs.Prelude.{◌≡◌, IfOk};
ghost use Rattle.source_log.specs.Fitting.{has_short_rows as has_short_rows_lem};
ghost use Rattle.source_log.specs.Fitting.{may_stand as may_stand_lem};

use repl_types::{Change, TableDef};
use row_changes::is_change_applicable;
use std::alloc::{AllocError, Global};

/// The most values of a row in a log record.
const ROW_LIMIT: usize = 64;

/// Whether each row of a change has at most 64 values.
fn has_short_rows(change: &Change) -> bool
    ensures { result ≡ has_short_rows_lem change.now }
{
    match change {
        Change::Insert { row, .. } | Change::Delete { row, .. } => row.len() <= ROW_LIMIT,
        Change::Update { before, after, .. } => {
            before.len() <= ROW_LIMIT && after.len() <= ROW_LIMIT
        }
        Change::Start { .. } | Change::Stop { .. } => true,
    }
}

/// Whether a change may stand in a log: it is of this table, which has a key, and fits it, and its
/// rows aren't too long for a stored record.
pub fn may_stand(alloc: Global, def: &TableDef, change: &Change) -> Result<bool, AllocError>
    ensures { IfOk result (λ fit. fit ≡ may_stand_lem def.now change.now) }
{
    if def.key.is_empty() || !has_short_rows(change) {
        return Ok(false);
    }
    is_change_applicable(alloc, def, change)
}
