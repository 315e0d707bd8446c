//! Which conditions of an index a price finds.

use event_types::{Cmp, List, Memory, Tuple, Value};
use scalar_expr::{Conj, Pred, Scalar, normal};
use static_index::StaticIndex;
use std::alloc::Global;
use std::test::Fail;

// An event that has one attribute, its price.
fn priced(alloc: Global, price: i128) -> Result<Tuple, Memory> {
    let mut vals = List::new(alloc);
    if vals.push(Value::Int(price)).is_err() {
        return Err(Memory);
    }
    Ok(Tuple::make(vals, 1, 1).unwrap())
}

// Price > least.
fn above(alloc: Global, least: i128) -> Result<Conj, Memory> {
    let least = Scalar::Lit(Value::Int(least));
    normal(alloc, Pred::Test(Scalar::Event(0), Cmp::Gt, least))
}

// Adds a condition, unless its id is there; gives whether it was added.
fn add(index: &mut StaticIndex, id: usize, condition: &Conj) -> Result<bool, Memory> {
    if index.has(id) {
        return Ok(false);
    }
    index.add(id, condition)?;
    Ok(true)
}

// Takes a condition away, if its id is there.
fn remove(index: &mut StaticIndex, id: usize) {
    if index.has(id) {
        index.remove(id);
    }
}

// The conditions 0 `Price > 100`, 1 `TRUE` and 2 `Price > 200`.
fn three(alloc: Global) -> Result<StaticIndex, Memory> {
    let mut index = StaticIndex::new(alloc);
    add(&mut index, 0, &above(alloc, 100)?)?;
    add(&mut index, 1, &normal(alloc, Pred::True)?)?;
    add(&mut index, 2, &above(alloc, 200)?)?;
    Ok(index)
}

// Whether an event of this price finds these conditions, and no others.
fn finds(alloc: Global, index: &StaticIndex, price: i128, ids: &[usize]) -> Result<bool, Memory> {
    let event = priced(alloc, price)?;
    let found = index.lookup(alloc, &event)?;
    Ok(found.as_slice() == ids)
}

#[test]
fn price_finds_the_conditions_that_it_meets(rt: HostRuntime) -> Result<(), Fail> {
    let alloc = rt.alloc();
    let mut index = three(alloc)?;
    assert!(rt; finds(alloc, &index, 150, &[0, 1])?);
    assert!(rt; !add(&mut index, 2, &above(alloc, 300)?)?, "2 is there");
    remove(&mut index, 0);
    assert!(rt; finds(alloc, &index, 150, &[1])?);
    Ok(())
}
