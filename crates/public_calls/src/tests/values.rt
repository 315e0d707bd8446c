//! Copies of values, and lists of numbers.
use event_types::{Copied, List, Memory, Numbers, Tuple, Vals, ValueRef};
use std::alloc::Global;
use std::test::Fail;

// A short text, a long one and a decimal.
fn values(alloc: Global) -> Result<Vals, Memory> {
    let mut vals = List::with_room(alloc, 3)?;
    vals.add(ValueRef::Text("café").to_value(alloc)?)?;
    vals.add(ValueRef::Text("more than fourteen bytes").to_value(alloc)?)?;
    vals.add(ValueRef::Dec {
        scale: 2,
        units: -5,
    }
    .to_value(alloc)?)?;
    Ok(vals)
}

#[test]
fn copy_outlives_the_tuple_that_it_is_of(rt: HostRuntime) -> Result<(), Fail> {
    let alloc = rt.alloc();
    let copy = match Tuple::make(values(alloc)?, 1, 3) {
        Ok(tuple) => tuple.copied(alloc)?,
        Err(_) => panic!(rt; "1 is before 3"),
    };
    assert!(rt; *copy.vals() == values(alloc)?);
    Ok(())
}

#[test]
fn numbers_are_put_at_the_end_sorted_and_taken_out(rt: HostRuntime) -> Result<(), Fail> {
    let mut numbers: Numbers = List::new(rt.alloc());
    for number in [10, 2, 300] {
        assert!(rt; numbers.push(number).is_ok());
    }
    numbers.sort();
    assert!(rt; numbers.len() == 3);
    assert!(rt; numbers.remove(1) == 10);
    assert!(rt; numbers.as_slice() == [2, 300].as_slice());
    Ok(())
}
