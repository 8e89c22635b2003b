//! That texts of columns and predicates are read. Which ones are, and to which trees, is in
//! `specs/ColumnTexts.antt`.

use repl_defs::{read_predicate, read_source};
use repl_types::List;

#[test]
fn a_column_and_a_predicate_are_read(rt: HostRuntime) {
    let columns = List::new(rt.alloc());
    assert!(rt; read_source(rt.alloc(), "1 + 1", &columns).is_ok());
    assert!(rt; read_predicate(rt.alloc(), "1 = 1", &columns).is_ok());
}
