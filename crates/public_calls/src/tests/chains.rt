//! Chains: a bead is made where memory is had, and each value is dropped once.
ghost use Rattle.std.specs.Prelude.{◌≡◌, filter, nat_le};

use inst_chain::{Bead, Chain, Look};
use std::alloc::Global;
use std::cell::Cell;
use std::process::Abort;
use std::rc::Rc;

// Puts a value at the back of a chain.
fn put<T: Drop>(rt: &impl Abort, alloc: Global, chain: &mut Chain<T>, value: T) {
    match Bead::make(alloc, value) {
        Ok(bead) => chain.link(bead),
        Err(_) => panic!(rt; "no memory for a bead"),
    }
}

// Takes out the numbers below a bound, as a caller proves it.
fn take_below(chain: &mut Chain<u64>, least: u64)
    ensures { chain.new ≡ filter (λ n. nat_le least n) chain.old }
{
    let mut walk = chain.walk();
    while let Some(number) = walk.get() {
        if least <= *number {
            walk.step();
        } else {
            let _ = walk.unlink();
        }
    }
}

// Sees that a chain has one value, and takes it out.
fn assert_has(rt: &impl Abort, chain: &mut Chain<u64>, want: u64) {
    assert_eq!(rt; chain.look().next().copied(), Some(want));
    let mut walk = chain.walk();
    match walk.unlink() {
        Some(bead) => assert_eq!(rt; bead.into_value(), want),
        None => panic!(rt; "no value"),
    }
    assert!(rt; walk.get().is_none());
}

#[test]
fn values_below_a_bound_are_taken_out_of_two_joined_chains(rt: HostRuntime) {
    let alloc = rt.alloc();
    let mut chain = Chain::new();
    let mut other = Chain::new();
    put(&rt, alloc, &mut chain, 2);
    put(&rt, alloc, &mut chain, 7);
    put(&rt, alloc, &mut other, 3);
    chain.append(&mut other);
    take_below(&mut chain, 7);
    assert_has(&rt, &mut chain, 7);
    let mut none: Look<'_, u64> = Look::none();
    assert!(rt; none.next().is_none());
}

// A value that adds to a sum when it is dropped.
struct Counted {
    sum: Rc<Cell<u64>>,
    weight: u64,
}

impl Drop for Counted {
    fn drop(self) {
        let Counted { sum, weight } = self;
        sum.set(sum.get().wrapping_add(weight));
    }
}

// Puts a value that counts at the back of a chain.
fn put_counted(
    rt: &impl Abort,
    alloc: Global,
    chain: &mut Chain<Counted>,
    sum: &Rc<Cell<u64>>,
    weight: u64,
) {
    let sum = Rc::clone(sum).expect(rt, "too many owners");
    put(rt, alloc, chain, Counted { sum, weight });
}

#[test]
fn value_that_is_taken_out_and_those_that_stay_are_dropped_once(rt: HostRuntime) {
    let alloc = rt.alloc();
    let sum = Rc::new(alloc, Cell::new(0)).expect(&rt, "no memory for the sum");
    let mut chain = Chain::new();
    put_counted(&rt, alloc, &mut chain, &sum, 1);
    put_counted(&rt, alloc, &mut chain, &sum, 10);
    put_counted(&rt, alloc, &mut chain, &sum, 100);
    let mut walk = chain.walk();
    walk.step();
    let _ = walk.unlink();
    drop(walk);
    assert_eq!(rt; sum.get(), 10);
    drop(chain);
    assert_eq!(rt; sum.get(), 111);
}
