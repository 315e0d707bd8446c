//! An expression over whole streams.
ghost use Rattle.std.specs.Prelude.{◌≡◌, ◌<◌, [], ◌∷◌, IfOk, length, pos};
ghost use Rattle.event_types.specs.declared.comparison.Cmp.TheVariants.{Lt};
ghost use Rattle.event_types.specs.declared.value.Value.TheVariants.{Int};
ghost use Rattle.semantics.specs.Denotation.{streams_of};
ghost use Rattle.semantics.specs.Expressions.{Fold, Next, Read};
ghost use Rattle.semantics.specs.Scalars.{Dur, Lit, Test};
ghost use Rattle.algebra.specs.Suits.{Suits};
ghost use Rattle.expressions.specs.Views.{ex_of};

use algebra::{Env, evaluate};
use event_types::{List, Memory, Tuple, Tuples, Value};
use expressions::Expr;
use scalar_expr::{Cmp, Map, Pred, Scalar, normal};
use std::alloc::Global;
use std::process::Abort;
use std::sync::ledger::Blank;
use std::test::Fail;
use steps::{Ledger, Quiet, Steps};

// A stream of these numbers, each at one time.
fn stream_of(rt: &impl Abort, alloc: Global, events: &[(i128, u64)]) -> Result<Tuples, Memory> {
    let mut tuples = List::new(alloc);
    for (number, time) in events {
        let mut vals = List::new(alloc);
        assert!(rt; vals.push(Value::Int(*number)).is_ok());
        match Tuple::make(vals, *time, *time) {
            Ok(tuple) => assert!(rt; tuples.push(tuple).is_ok()),
            Err(_) => panic!(rt; "starts after its detection"),
        }
    }
    Ok(tuples)
}

// A stream of one event, and one of five.
fn two_streams(rt: &impl Abort, alloc: Global) -> Result<Env, Memory>
    ensures { IfOk result (λ env. length env ≡ 2) }
{
    let left = stream_of(rt, alloc, &[(5, 1)])?;
    let right = stream_of(rt, alloc, &[(3, 1), (7, 2), (8, 2), (6, 3), (2, 4)])?;
    let mut env = List::new(alloc);
    if env.push(left).is_err() {
        return Err(Memory);
    }
    if env.push(right).is_err() {
        return Err(Memory);
    }
    Ok(env)
}

// FOLD over NEXT, both with any event: it goes on while DUR is below 3, and its value is DUR.
fn short_runs(alloc: Global) -> Result<Expr, Memory>
    ensures { IfOk result (λ expr. ex_of expr ≡ Fold [] (Test Dur Lt (Lit (Int (pos 3))) ∷ []) (record { width = 2; parts = Dur ∷ [] }) (Next [] (Read 0) (Read 1)) (Read 1)) }
{
    let any = normal(alloc, Pred::True)?;
    let choose = normal(alloc, Pred::True)?;
    let below_three = Pred::Test(Scalar::Dur, Cmp::Lt, Scalar::Lit(Value::Int(3)));
    let on = normal(alloc, below_three)?;
    let mut parts = List::new(alloc);
    if parts.push(Scalar::Dur).is_err() {
        return Err(Memory);
    }
    let left = Box::new(alloc, Expr::Read(0))?;
    let right = Box::new(alloc, Expr::Read(1))?;
    let pairs = Box::new(alloc, Expr::Next(any, left, right))?;
    let events = Box::new(alloc, Expr::Read(1))?;
    Ok(Expr::Fold(choose, on, Map { width: 2, parts }, pairs, events))
}

fn evaluated<L: Ledger>(
    alloc: Global,
    expr: &Expr,
    env: &Env,
    blank: Blank,
) -> Result<Tuples, Memory>
    requires name { blank.name ≡ L.name }
    requires parts { blank.parts ≡ L.parts }
    requires some { 0 < blank.parts }
    requires suits { Suits (ex_of expr.now) (length env.now) (streams_of env.now) }
{
    let mut steps = Steps::<L>::new(blank);
    evaluate(alloc, expr, env, &mut steps)
}

// The pairs 5, 7 and 5, 8 span 1 to 2. The event of time 3 makes a span of 2, which is short, and that
// of time 4 one of 3, which isn't.
#[test]
fn each_earliest_match_goes_on_while_its_span_is_short(rt: HostRuntime) -> Result<(), Fail> {
    let alloc = rt.alloc();
    let env = two_streams(&rt, alloc)?;
    let expr = short_runs(alloc)?;
    let found = evaluated::<Quiet>(alloc, &expr, &env, Blank::new(1))?;
    assert_eq!(rt; found.len(), 2);
    for tuple in found.as_slice() {
        assert_eq!(rt; tuple.from(), 1);
        assert_eq!(rt; tuple.at(), 3);
        assert_eq!(rt; tuple.vals().len(), 1);
        assert!(rt; *tuple.vals().get(0) == Value::Int(2));
    }
    Ok(())
}
