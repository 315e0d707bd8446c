//! The plain evaluator, which closes epochs of two queries.
ghost use Rattle.std.specs.Prelude.{◌≡◌, ◌<◌, [], ◌∷◌, IfOk, length, pos};
ghost use Rattle.event_types.specs.declared.comparison.Cmp.TheVariants.{Lt};
ghost use Rattle.event_types.specs.declared.value.Value.TheVariants.{Int};
ghost use Rattle.semantics.specs.Expressions.{Filter, Next, Read};
ghost use Rattle.semantics.specs.Scalars.{Dur, Lit, Test};
ghost use Rattle.expressions.specs.Views.{ex_of};

use event_types::{List, Memory, Numbers, Tuple, Tuples, Value};
use expressions::Expr;
use reference::{Batch, Evaluator, Query};
use scalar_expr::{Cmp, Pred, Scalar, normal};
use std::alloc::Global;
use std::process::Abort;
use std::sync::ledger::Blank;
use std::test::Fail;
use steps::{Ledger, Quiet, Steps};

// S NEXT {DUR < 3} S.
fn soon(alloc: Global) -> Result<Expr, Memory>
    ensures { IfOk result (λ expr. ex_of expr ≡ Next (Test Dur Lt (Lit (Int (pos 3))) ∷ []) (Read 0) (Read 0)) }
{
    let below_three = Pred::Test(Scalar::Dur, Cmp::Lt, Scalar::Lit(Value::Int(3)));
    let condition = normal(alloc, below_three)?;
    let left = Box::new(alloc, Expr::Read(0))?;
    let right = Box::new(alloc, Expr::Read(0))?;
    Ok(Expr::Next(condition, left, right))
}

// FILTER {DUR < 2} Soon.
fn at_once(alloc: Global) -> Result<Expr, Memory>
    ensures { IfOk result (λ expr. ex_of expr ≡ Filter (Test Dur Lt (Lit (Int (pos 2))) ∷ []) (Read 1)) }
{
    let below_two = Pred::Test(Scalar::Dur, Cmp::Lt, Scalar::Lit(Value::Int(2)));
    let condition = normal(alloc, below_two)?;
    let soon = Box::new(alloc, Expr::Read(1))?;
    Ok(Expr::Filter(condition, soon))
}

// Hears an event of the declared stream that starts when it is detected.
fn note_tuple(
    rt: &impl Abort,
    alloc: Global,
    evaluator: &mut Evaluator,
    number: i128,
    time: u64,
) -> Result<(), Memory>
    requires { length evaluator.old ≡ 1 }
    ensures { length evaluator.new ≡ 1 }
{
    let mut vals = List::new(alloc);
    assert!(rt; vals.push(Value::Int(number)).is_ok());
    match Tuple::make(vals, time, time) {
        Ok(tuple) => evaluator.note_tuple(0, tuple),
        Err(_) => panic!(rt; "starts after its detection"),
    }
}

// The second query is worked on first.
fn second_first(alloc: Global) -> Result<Numbers, Memory>
    ensures { IfOk result (λ order. order ≡ 1 ∷ 0 ∷ []) }
{
    let mut order = List::new(alloc);
    if order.push(1).is_err() {
        return Err(Memory);
    }
    if order.push(0).is_err() {
        return Err(Memory);
    }
    Ok(order)
}

// Closes an epoch of the queries AtOnce and Soon, where AtOnce stands first and reads Soon.
fn close<L: Ledger>(
    alloc: Global,
    evaluator: &mut Evaluator,
    at_once: &Expr,
    soon: &Expr,
    time: u64,
    blank: Blank,
) -> Result<Batch, Memory>
    requires name { blank.name ≡ L.name }
    requires parts { blank.parts ≡ L.parts }
    requires some { 0 < blank.parts }
    requires one { length evaluator.old ≡ 1 }
    requires at_once { ex_of at_once.now ≡ Filter (Test Dur Lt (Lit (Int (pos 2))) ∷ []) (Read 1) }
    requires soon { ex_of soon.now ≡ Next (Test Dur Lt (Lit (Int (pos 3))) ∷ []) (Read 0) (Read 0) }
    ensures { length evaluator.new ≡ 1 }
{
    let mut steps = Steps::<L>::new(blank);
    let order = second_first(alloc)?;
    let first = Query {
        name: "AtOnce",
        stream: 2,
        expr: at_once,
    };
    let second = Query {
        name: "Soon",
        stream: 1,
        expr: soon,
    };
    evaluator.close(alloc, &[first, second], &order, time, &mut steps)
}

// The tuples have this detection and these numbers.
fn are(rt: &impl Abort, tuples: &Tuples, time: u64, pairs: &[(i128, i128)]) {
    assert_eq!(rt; tuples.len(), pairs.len());
    for (i, pair) in pairs.iter().enumerate() {
        let tuple = tuples.get(i);
        assert_eq!(rt; tuple.at(), time);
        assert_eq!(rt; tuple.vals().len(), 2);
        assert!(rt; *tuple.vals().get(0) == Value::Int(pair.0));
        assert!(rt; *tuple.vals().get(1) == Value::Int(pair.1));
    }
}

// The epoch has these results of AtOnce, and these of Soon.
fn closes_with(
    rt: &impl Abort,
    alloc: Global,
    evaluator: &mut Evaluator,
    time: u64,
    at_once_pairs: &[(i128, i128)],
    soon_pairs: &[(i128, i128)],
) -> Result<(), Memory>
    requires { length evaluator.old ≡ 1 }
    ensures { length evaluator.new ≡ 1 }
{
    let at_once = at_once(alloc)?;
    let soon = soon(alloc)?;
    let batch = close::<Quiet>(alloc, evaluator, &at_once, &soon, time, Blank::new(1))?;
    assert_eq!(rt; batch.len(), 2);
    are(rt, batch.get(0), time, at_once_pairs);
    are(rt, batch.get(1), time, soon_pairs);
    Ok(())
}

// At 2 the event of 1 meets two events, with spans of 1. At 4 each of these meets an event, with a
// span of 2.
#[test]
fn a_query_is_evaluated_after_the_query_that_it_reads(rt: HostRuntime) -> Result<(), Fail> {
    let alloc = rt.alloc();
    let mut evaluator = Evaluator::make(alloc, 1)?;
    note_tuple(&rt, alloc, &mut evaluator, 5, 1)?;
    note_tuple(&rt, alloc, &mut evaluator, 8, 2)?;
    note_tuple(&rt, alloc, &mut evaluator, 7, 2)?;
    closes_with(
        &rt,
        alloc,
        &mut evaluator,
        2,
        &[(5, 7), (5, 8)],
        &[(5, 7), (5, 8)],
    )?;
    note_tuple(&rt, alloc, &mut evaluator, 9, 4)?;
    closes_with(&rt, alloc, &mut evaluator, 4, &[], &[(7, 9), (8, 9)])?;
    Ok(())
}
