//! Which states a removed line takes away, and which numbers states have.
ghost use Rattle.std.specs.Prelude.{◌≡◌, IfOk, length};
ghost use Rattle.prefix_merge.specs.Merging.{HasEnd};

use automaton::{End, Hop, Hops, Line, Wait};
use event_types::{Cmp, List, Memory, Numbers, Value};
use long_lists::LongList;
use prefix_merge::{Left, Merged};
use scalar_expr::{Pred, Scalar, normal};
use std::alloc::Global;
use std::test::Fail;

// The attribute at this place is above 5.
fn above(place: usize) -> Pred {
    Pred::Test(Scalar::Event(place), Cmp::Gt, Scalar::Lit(Value::Int(5)))
}

// A hop with a wait on the stream 1.
fn hop(alloc: Global, choose: Pred) -> Result<Hop, Memory> {
    let wait = Wait {
        stream: 1,
        choose: normal(alloc, choose)?,
        fold: None,
    };
    Ok(Hop {
        step: List::new(alloc),
        wait,
    })
}

// Whether the first of the ends has this birth.
fn is_born(ends: &[End], birth: Option<u64>) -> bool {
    match ends.first() {
        Some(end) => end.birth == birth,
        None => false,
    }
}

// One hop.
fn only(alloc: Global, hop: Hop) -> Result<Hops, Memory> {
    let mut hops = List::new(alloc);
    hops.add(hop)?;
    Ok(hops)
}

// A line with an empty last step.
fn line(alloc: Global, root: usize, hops: Hops) -> Line {
    Line {
        root,
        hops,
        last: List::new(alloc),
        out: 9,
    }
}

// Two lines.
fn two(alloc: Global, first: Line, second: Line) -> Result<LongList<Line>, Memory>
    ensures { IfOk result (λ lines. length lines ≡ 2) }
{
    let mut lines = LongList::new(alloc);
    lines.add(first)?;
    lines.add(second)?;
    Ok(lines)
}

#[test]
fn removed_line_takes_away_the_states_that_it_alone_uses(rt: HostRuntime) -> Result<(), Fail> {
    let alloc = rt.alloc();
    let mut hops = only(alloc, hop(alloc, above(0))?)?;
    assert!(rt; hops.push(hop(alloc, above(1))?).is_ok());
    let longer = line(alloc, 0, hops);
    let shorter = line(alloc, 0, only(alloc, hop(alloc, above(0))?)?);
    let lines = two(alloc, longer, shorter)?;
    let mut merged = Merged::of(alloc, &lines)?;
    assert_eq!(rt; merged.network().states(), 3);
    merged.remove(0, &mut Left::new(alloc));
    let network = merged.network();
    assert_eq!(rt; network.states(), 2);
    assert_eq!(rt; network.places(), 2);
    assert!(rt; network.used(0) && network.used(1));
    Ok(())
}

// A line of the root 7 comes as the end 0, which none has. Gives the states that came.
fn come(alloc: Global, merged: &mut Merged) -> Result<Numbers, Memory>
    requires { ¬ HasEnd merged.old 0 }
{
    let mut came = List::new(alloc);
    merged.insert(&line(alloc, 7, List::new(alloc)), 0, Some(4), &mut came)?;
    Ok(came)
}

#[test]
fn freed_number_is_taken_again(rt: HostRuntime) -> Result<(), Fail> {
    let alloc = rt.alloc();
    let lines = two(
        alloc,
        line(alloc, 5, List::new(alloc)),
        line(alloc, 6, List::new(alloc)),
    )?;
    let mut merged = Merged::of(alloc, &lines)?;
    drop(lines);
    merged.remove(0, &mut Left::new(alloc));
    let came = come(alloc, &mut merged)?;
    assert_eq!(rt; came.as_slice(), [0].as_slice());
    let network = merged.network();
    assert_eq!(rt; network.states(), 2);
    assert_eq!(rt; network.places(), 2);
    assert!(rt; network.used(0) && network.used(1));
    assert_eq!(rt; network.root(0), Some(7));
    assert_eq!(rt; network.root(1), Some(6));
    assert!(rt; is_born(network.ends(0).as_slice(), Some(4)));
    assert!(rt; is_born(network.ends(1).as_slice(), None));
    Ok(())
}
