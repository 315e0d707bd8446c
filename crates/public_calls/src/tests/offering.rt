//! Engines over a query text, and the events that they are offered.
ghost use Rattle.std.specs.Prelude.{◌≡◌, [], ◌∷◌, IfOk, IsTrue, None, OnOk};
ghost use Rattle.event_types.specs.declared.kind.Kind.TheVariants as kind;
ghost use Rattle.semantics.specs.Kinds.{HasKinds};
ghost use Rattle.automaton.specs.Work.{is_in};

use catalogue::{Catalogue, load};
use epoch_engine::{Engine, OfferFault};
use event_types::{Kind, Kinds, List, Memory, StreamId, Tuple, Value};
use long_lists::LongNumbers;
use prefix_merge::Merged;
use std::alloc::Global;
use std::process::Abort;

/// Pair waits for an equal event, Fall for lower ones, Near for any within 5, and After for a pair. No query reads News.
const QUERIES: &[u8] = b"STREAM Stock (x INT);\nSTREAM News (x INT);\n\
    SELECT * FROM Stock NEXT {$2.x = $1.x} Stock PUBLISH Pair;\n\
    SELECT * FROM Stock FOLD {$2.x < $.x, TRUE, $2.x AS x} Stock PUBLISH Fall;\n\
    SELECT * FROM Stock NEXT {DUR <= 5} Stock PUBLISH Near;\n\
    SELECT * FROM Stock NEXT Pair PUBLISH After;\n";

/// The streams that are declared; their tuples have one number.
pub const STOCK: StreamId = 0;

pub const NEWS: StreamId = 1;

/// An event of one number: the number, its start and its detection.
pub type Parts = (i128, u64, u64);

/// The catalogue of the queries. Nothing but want of memory refuses them.
pub fn catalogue(alloc: Global) -> Result<Catalogue, Memory> {
    match load(alloc, QUERIES) {
        Ok(catalogue) => Ok(catalogue),
        Err(_) => Err(Memory),
    }
}

/// An engine over them, which has heard nothing.
pub fn engine(alloc: Global, catalogue: &Catalogue) -> Result<Engine, Memory> {
    let merged = Merged::of(alloc, catalogue.lines())?;
    let layout = catalogue.layout().copy(alloc)?;
    Engine::make(alloc, merged, layout)
}

/// Makes an event of one number, which is not ahead of the open epoch, and offers it.
pub fn offer(
    rt: &impl Abort,
    alloc: Global,
    engine: &mut Engine,
    stream: StreamId,
    parts: Parts,
) -> Result<Result<(), OfferFault>, Memory>
    ensures network { engine.new.network ≡ engine.old.network }
    ensures layout { engine.new.layout ≡ engine.old.layout }
    ensures opened { IfOk result (λ answer. OnOk answer (engine.new.time ≡ None → engine.new.closed_time ≡ None)) }
{
    let (number, from, at) = parts;
    let tuple = event(rt, alloc, number, from, at)?;
    let layout = engine.layout();
    assert!(rt; stream < layout.kinds.len());
    assert!(rt; is_int(layout.kinds.get(stream)));
    assert!(rt; !is_worked(&layout.order, stream));
    if let Some(time) = engine.open_time() {
        assert!(rt; at <= time);
    }
    Ok(engine.offer(stream, tuple))
}

/// Whether a stream stands in the order of work.
pub fn is_worked(order: &LongNumbers, stream: StreamId) -> bool
    ensures { result ≡ is_in order.now stream }
{
    for place in 0..order.len() {
        if stream == *order.get(place) {
            return true;
        }
    }
    false
}

// The event of one number.
fn event(rt: &impl Abort, alloc: Global, number: i128, from: u64, at: u64) -> Result<Tuple, Memory>
    ensures kinds { IfOk result (HasKinds (kind.Int ∷ [])) }
    ensures at { IfOk result (λ event. event.at ≡ at) }
{
    let mut vals = List::new(alloc);
    vals.add(Value::Int(number))?;
    match Tuple::make(vals, from, at) {
        Ok(event) => Ok(event),
        Err(_) => panic!(rt; "starts after its detection"),
    }
}

// Whether these are the kinds of one number.
fn is_int(kinds: &Kinds) -> bool
    ensures { IsTrue result → kinds.now ≡ kind.Int ∷ [] }
{
    matches!(kinds.as_slice(), [Kind::Int])
}
