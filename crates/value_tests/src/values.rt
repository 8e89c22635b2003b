//! The order of lists of values.

use repl_types::{List, TEXT_LIMIT, Text, Value};
use std::alloc::Global;
use std::cmp::Ordering;
use std::test::*;

fn text_of(alloc: Global, text: &str) -> Result<Value, Fail> {
    let text = String::from_str(alloc, text)?;
    if text.len() > TEXT_LIMIT {
        return Err("a text of over 1,000 bytes".into());
    }
    Ok(Value::Text(Text::new(text)))
}

#[test]
fn lists_compare_by_what_they_contain(rt: HostRuntime) -> Result<(), Fail> {
    let mut key = List::new(rt.alloc());
    assert!(rt; key.is_empty());
    key.push(Value::Null)?;
    key.push(Value::Int(-3))?;
    assert_eq!(rt; key.len(), 2);
    let mut longer = key.clone()?;
    assert!(rt; longer == key);
    longer.push(text_of(rt.alloc(), "x")?)?;
    assert_eq!(rt; key.cmp(&longer), Ordering::Less);
    assert_eq!(rt; longer.partial_cmp(&key), Some(Ordering::Greater));
    assert_eq!(rt; longer.as_slice().len(), 3);
    let values = longer.into_vec();
    assert_eq!(rt; List::from_vec(values).len(), 3);
    Ok(())
}
