//! The row of a target that a row of the source makes.

ghost use Rattle.std.specs.Prelude.{◌≡◌, IfOk};
ghost use Rattle.repl_model.specs.Selection.{is_selected as is_selected_lem};
ghost use Rattle.repl_model.specs.Selection.{target_row as target_row_lem};

use repl_definitions::{ColumnFrom, Member};
use repl_types::{List, Row};
use row_expr::{eval, test};
use std::alloc::{AllocError, Global};

/// Whether a member's predicate is true of a row, or the member has none.
pub fn is_selected(member: &Member, row: &Row) -> bool
    ensures { result ≡ is_selected_lem member.now row.now }
{
    match &member.filter {
        Some(predicate) => test(predicate, row),
        None => true,
    }
}

/// The values of a member's columns for a row. Columns that sum up are left out.
pub fn target_row(alloc: Global, member: &Member, row: &Row) -> Result<Row, AllocError>
    ensures { IfOk result (λ values. values ≡ target_row_lem member.now row.now) }
{
    let mut values = List::new(alloc);
    for column in member.columns.as_slice() {
        if let ColumnFrom::Plain(expr) = &column.from {
            values.push(eval(alloc, expr, row)?)?;
        }
    }
    Ok(values)
}
