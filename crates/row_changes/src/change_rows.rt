//! The change rows of changes.

ghost use Rattle.std.specs.Prelude.{◌≡◌, ◌∷◌, [], ◌++◌, if◌then◌else◌, IfOk, OnOk};
ghost use Rattle.repl_model.specs.ChangeRows.{no_befores as no_befores_lem};
ghost use Rattle.repl_model.specs.ChangeRows.{shows_nothing as shows_nothing_lem};
ghost use Rattle.repl_model.specs.ChangeRows.{insert_row as insert_row_lem};
ghost use Rattle.repl_model.specs.ChangeRows.{delete_row as delete_row_lem};
ghost use Rattle.repl_model.specs.ChangeRows.{update_row as update_row_lem, rows_of_placed};

use crate::changes::{images, same_values, table_of};
use repl_types::{CdRow, Change, List, Op, Placed, Registration, Row, Sequence, Value};
use std::alloc::{AllocError, Global};

/// Before-images that are all NULL.
fn no_befores(alloc: Global, reg: &Registration) -> Result<Row, AllocError>
    ensures { IfOk result (λ befores. befores ≡ no_befores_lem reg.now) }
{
    let mut befores = List::new(alloc);
    for _ in reg.before.as_slice() {
        befores.push(Value::Null)?;
    }
    Ok(befores)
}

/// Whether an update has no change row: only those that change a registered column are wanted, and
/// it changes none.
fn shows_nothing(
    alloc: Global,
    reg: &Registration,
    before: &Row,
    after: &Row,
) -> Result<bool, AllocError>
    ensures { IfOk result (λ nothing. nothing ≡ shows_nothing_lem reg.now before.now after.now) }
{
    if !reg.changes_only {
        return Ok(false);
    }
    let places = reg.after.as_slice();
    Ok(same_values(
        &images(alloc, places, before)?,
        &images(alloc, places, after)?,
    ))
}

/// The change row of an insert, or of the insert that an update is taken apart into.
fn insert_row(
    alloc: Global,
    reg: &Registration,
    seq: u64,
    pos: u64,
    sub: u16,
    row: &Row,
) -> Result<CdRow, AllocError>
    ensures { IfOk result (λ change_row. change_row ≡ insert_row_lem reg.now seq pos sub row.now) }
{
    Ok(CdRow {
        commitseq: seq,
        intentseq: Sequence { position: pos, sub },
        op: Op::I,
        after: images(alloc, reg.after.as_slice(), row)?,
        before: no_befores(alloc, reg)?,
    })
}

/// The change row of a delete.
fn delete_row(
    alloc: Global,
    reg: &Registration,
    seq: u64,
    pos: u64,
    row: &Row,
) -> Result<CdRow, AllocError>
    ensures { IfOk result (λ change_row. change_row ≡ delete_row_lem reg.now seq pos row.now) }
{
    Ok(CdRow {
        commitseq: seq,
        intentseq: Sequence {
            position: pos,
            sub: 0,
        },
        op: Op::D,
        after: images(alloc, reg.after.as_slice(), row)?,
        before: images(alloc, reg.before.as_slice(), row)?,
    })
}

/// The change row of an update.
fn update_row(
    alloc: Global,
    reg: &Registration,
    seq: u64,
    pos: u64,
    before: &Row,
    after: &Row,
) -> Result<CdRow, AllocError>
    ensures { IfOk result (λ change_row.
        change_row ≡ update_row_lem reg.now seq pos before.now after.now) }
{
    Ok(CdRow {
        commitseq: seq,
        intentseq: Sequence {
            position: pos,
            sub: 0,
        },
        op: Op::U,
        after: images(alloc, reg.after.as_slice(), after)?,
        before: images(alloc, reg.before.as_slice(), before)?,
    })
}

/// Appends the change rows of an update: none, a delete and an insert, or one. If memory runs out,
/// some may be appended.
fn change_rows_of_update(
    alloc: Global,
    reg: &Registration,
    seq: u64,
    pos: u64,
    before: &Row,
    after: &Row,
    out: &mut List<CdRow>,
) -> Result<(), AllocError>
    ensures { OnOk result (out.new ≡ out.old
        ++ (if shows_nothing_lem reg.now before.now after.now then []
        else (if reg.now.del_ins
        then delete_row_lem reg.now seq pos before.now ∷ insert_row_lem reg.now seq pos 1
        after.now ∷ []
        else update_row_lem reg.now seq pos before.now after.now ∷ []))) }
{
    if shows_nothing(alloc, reg, before, after)? {
        return Ok(());
    }
    if reg.del_ins {
        out.push(delete_row(alloc, reg, seq, pos, before)?)?;
        out.push(insert_row(alloc, reg, seq, pos, 1, after)?)?;
    } else {
        out.push(update_row(alloc, reg, seq, pos, before, after)?)?;
    }
    Ok(())
}

/// Appends the change rows of one change of a unit with this seq: none if it is of another table
/// than the registration. If memory runs out, some may be appended.
pub fn change_rows_of_change(
    alloc: Global,
    reg: &Registration,
    seq: u64,
    placed: &Placed,
    out: &mut List<CdRow>,
) -> Result<(), AllocError>
    ensures { OnOk result (out.new ≡ out.old ++ rows_of_placed reg.now seq placed.now) }
{
    if *table_of(&placed.change) != reg.table {
        return Ok(());
    }
    let pos = placed.pos;
    match &placed.change {
        Change::Insert { row, .. } => out.push(insert_row(alloc, reg, seq, pos, 0, row)?)?,
        Change::Update { before, after, .. } => {
            change_rows_of_update(alloc, reg, seq, pos, before, after, out)?
        }
        Change::Delete { row, .. } => out.push(delete_row(alloc, reg, seq, pos, row)?)?,
        Change::Start { .. } | Change::Stop { .. } => {}
    }
    Ok(())
}
