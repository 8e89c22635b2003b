//! The writers of lines that no command writes yet.

use repl_records::{AggregateRow, HistoryRow, LatestRow, PointRow, RejectedUnit, TrailEntry};
use repl_types::{List, Op, Sequence};
use reply_text::{
    write_aggregate_row, write_history_row, write_latest_row, write_point_row, write_rejected_unit,
    write_trail_entry,
};
use std::test::Fail;

const LINES: &[u8] = b"row 130\n\
row 0 110\n\
row 00000000000000050000 D 00000000000000060000 110\n\
row 00000000000000070001 I 00000000000000080000 120\n\
row 00000000000000080000 2\n\
row 7 refresh 00000000000000090000 rows 4\n";

#[test]
fn lines_that_no_command_writes_yet(rt: HostRuntime) -> Result<(), Fail> {
    let alloc = rt.alloc();
    let mut out = Vec::new(alloc);
    let point = PointRow {
        marker: 130,
        row: List::new(alloc),
    };
    write_point_row(&point, &mut out)?;
    let aggregate = AggregateRow {
        low: 0,
        high: 110,
        row: List::new(alloc),
    };
    write_aggregate_row(&aggregate, &mut out)?;
    let history = HistoryRow {
        intentseq: Sequence {
            position: 5,
            sub: 0,
        },
        op: Op::D,
        commitseq: 6,
        time: 110,
        row: List::new(alloc),
    };
    write_history_row(&history, &mut out)?;
    let latest = LatestRow {
        intentseq: Sequence {
            position: 7,
            sub: 1,
        },
        op: Op::I,
        commitseq: 8,
        time: 120,
        row: List::new(alloc),
    };
    write_latest_row(&latest, &mut out)?;
    write_rejected_unit(8, &RejectedUnit { code: 2 }, &mut out)?;
    let entry = TrailEntry::Refresh {
        p: 9,
        rows: 4,
        base: None,
    };
    write_trail_entry(7, &entry, &mut out)?;
    assert!(rt; out.as_slice() == LINES);
    Ok(())
}
