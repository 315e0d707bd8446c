//! The second half of the closing: what was made of an epoch is put in place. Nothing here takes memory.
ghost use Rattle.std.specs.Prelude.{◌≡◌, ◌+◌, ◌<◌, ◌≤◌, ◌++◌, [], ℕ, None, Some, Contains, IsPermutation, IsTrue, filter, length, not, slice_get, slice_index_or, take};
ghost use Rattle.std.specs.List.{All};
ghost use Rattle.instances.specs.Keys.{EventFits, candidates_of};
ghost use Rattle.semantics.specs.Nexts.{is_eligible};
ghost use Rattle.scalar_expr.specs.Fits.{AllFit};
ghost use Rattle.automaton.specs.States.{is_used, wait_at};
ghost use Rattle.automaton.specs.declared.wait.Wait.{Wait};
ghost use Rattle.binding_index.specs.KeyParts.{first_key};
ghost use Rattle.binding_index.specs.Leads.{ready_in};
ghost use Rattle.binding_index.specs.Stores.{condition_of, instances_of, key_of, ready_of};
ghost use Rattle.binding_index.specs.declared.store.Store.{Store as Stored};
ghost use Rattle.epoch_laws.specs.Events.{IsKeyOf};
ghost use Rattle.epoch_draft.specs.Deriving.{CanDraw, DrawnUpTo, news_of};
ghost use Rattle.epoch_draft.specs.Candidates.{candidates_at};
ghost use Rattle.epoch_draft.specs.Drafts.{DraftFits};
ghost use Rattle.epoch_draft.specs.EpochWork.{pairs_work};
ghost use Rattle.epoch_draft.specs.Held.{held, instances_in, key_in, shape_of};
ghost use Rattle.epoch_draft.specs.Led.{StayReady};
ghost use Rattle.epoch_draft.specs.Purging.{AreUsedIn};
ghost use Rattle.epoch_draft.specs.Readying.{HasRoom, HaveRoom, HaveRoomIn};
ghost use Rattle.epoch_draft.specs.Stores.{HasStores};
ghost use Rattle.epoch_draft.specs.Settling.{AreClosed, AreLinked, AreSettled, AreTaken, IsTakenAt, PairSuits, tuples_in};
ghost use Rattle.epoch_draft.specs.Takes.{takes_work};
ghost use Rattle.epoch_draft.specs.Watching.{Watches};

use crate::draft::{Beads, Lists, Pair};
use crate::drawing::Drawing;
use crate::made::Made;
use crate::purging::forget_paired;
use crate::stores::Stores;
use crate::watching::{lower_at, purge_due};
use automaton::{Layout, Network};
use binding_index::Store;
use deadlines::Deadlines;
use event_types::Tuple;
use inst_chain::Chain;
use instances::{Instance, SpentBeads, Waiting};
use scalar_expr::Conj;
use steps::{Ledger, Steps};

/// What the second half of a closing goes by: a network and its layout, and the time of the epoch.
#[derive(Drop)]
pub struct ClosingEpoch<'a> {
    pub network: &'a Network,
    pub layout: &'a Layout,
    pub time: u64,
}

/// Takes the stores over an epoch that was drawn: what its tuples match is taken out, the new instances come
/// in, and what no event after its time can match is taken out, for which those stores alone are looked at whose
/// deadlines passed. Where a tuple was listed, the keys that no instance has any more are forgotten. Takes no
/// memory.
pub fn settle<L: Ledger>(
    closing: &ClosingEpoch<'_>,
    deadlines: &mut Deadlines,
    stores: &mut Stores,
    opened: &Lists,
    drawing: &mut Drawing,
    steps: &mut Steps<L>,
)
    requires can_draw { CanDraw closing.now.network.now closing.now.layout.now stores.old opened.now }
    requires drawn { DrawnUpTo closing.now.network.now closing.now.layout.now stores.old opened.now closing.now.layout.now.order drawing.old.draft drawing.old.pairs }
    requires room { HaveRoom stores.old drawing.old.draft.beads }
    requires watches { Watches deadlines.old stores.old }
    ensures closed { AreClosed (closing.now.time + 1) closing.now.network.now (news_of opened.now drawing.old.draft.made closing.now.layout.now.order) stores.old stores.new }
    ensures watches { Watches deadlines.new stores.new }
    ensures used { All (λ pair. AreUsedIn (slice_index_or stores.new pair.state None)) drawing.old.pairs }
    ensures stay { StayReady stores.old stores.new }
    ensures made { drawing.new.draft.made ≡ drawing.old.draft.made }
    ensures fits { DraftFits (length closing.now.layout.now.kinds) (length closing.now.network.now) drawing.new.draft }
    ensures ticks { steps.new ≤ steps.old + pairs_work closing.now.network.now closing.now.layout.now.order stores.old opened.now drawing.old.draft.made drawing.old.pairs }
{
    step(closing, deadlines, stores, opened, drawing, steps);
    purge_due(stores, deadlines, closing.time);
    forget_paired(stores, drawing.pairs.as_slice());
}

// The same without the purge.
fn step<L: Ledger>(
    closing: &ClosingEpoch<'_>,
    deadlines: &mut Deadlines,
    stores: &mut Stores,
    opened: &Lists,
    drawing: &mut Drawing,
    steps: &mut Steps<L>,
)
    requires can_draw { CanDraw closing.now.network.now closing.now.layout.now stores.old opened.now }
    requires drawn { DrawnUpTo closing.now.network.now closing.now.layout.now stores.old opened.now closing.now.layout.now.order drawing.old.draft drawing.old.pairs }
    requires room { HaveRoom stores.old drawing.old.draft.beads }
    requires watches { Watches deadlines.old stores.old }
    ensures settled { AreSettled closing.now.network.now (news_of opened.now drawing.old.draft.made closing.now.layout.now.order) stores.old stores.new }
    ensures watches { Watches deadlines.new stores.new }
    ensures stay { StayReady stores.old stores.new }
    ensures made { drawing.new.draft.made ≡ drawing.old.draft.made }
    ensures pairs { drawing.new.pairs ≡ drawing.old.pairs }
    ensures fits { DraftFits (length closing.now.layout.now.kinds) (length closing.now.network.now) drawing.new.draft }
    ensures ticks { steps.new ≤ steps.old + pairs_work closing.now.network.now closing.now.layout.now.order stores.old opened.now drawing.old.draft.made drawing.old.pairs }
{
    take_all(
        closing.network,
        stores,
        opened,
        &drawing.draft.made,
        drawing.pairs.as_slice(),
        steps,
        &mut drawing.draft.spent,
    );
    let draft = &mut drawing.draft;
    link_all(
        closing.network,
        deadlines,
        stores,
        &mut draft.beads,
        draft.reached.numbers.as_slice(),
    );
}

// Takes out the instances that the tuples of these pairs match.
fn take_all<L: Ledger>(
    network: &Network,
    stores: &mut Stores,
    opened: &Lists,
    made: &Made,
    pairs: &[Pair],
    steps: &mut Steps<L>,
    spent: &mut SpentBeads,
)
    requires stores { HasStores network.now stores.old }
    requires as_many { length made.now ≡ length opened.now }
    requires pairs { All (PairSuits network.now (tuples_in opened.now made.now) (length opened.now) (held stores.old)) pairs.now }
    ensures taken { AreTaken network.now (tuples_in opened.now made.now) pairs.now stores.old stores.new }
    ensures ticks { steps.new ≤ steps.old + takes_work network.now (tuples_in opened.now made.now) (held stores.old) pairs.now }
{
    for pair in pairs {
        let tuple = tuple_of(opened, made, *pair);
        take_at(network, stores, pair.state, tuple, steps, spent);
    }
}

// The tuple of a pair: one of the open ones of its stream, or else of those that were made.
fn tuple_of<'a>(opened: &'a Lists, made: &'a Made, pair: Pair) -> &'a Tuple
    requires stream { pair.stream < length opened.now }
    requires place { pair.place < length (tuples_in opened.now made.now pair.stream) }
    ensures { slice_get (tuples_in opened.now made.now pair.stream) pair.place ≡ Some result.now }
{
    let tuples = opened.get(pair.stream);
    if tuples.len() == 0 {
        made.get(pair.stream, pair.place)
    } else {
        tuples.get(pair.place)
    }
}

// Takes the instances at a state out that the tuple matches.
fn take_at<L: Ledger>(
    network: &Network,
    stores: &mut Stores,
    state: usize,
    tuple: &Tuple,
    steps: &mut Steps<L>,
    spent: &mut SpentBeads,
)
    requires used { IsTrue (is_used network.now state) }
    requires stores { HasStores network.now stores.old }
    requires key { (wait : Wait) → wait_at network.now state ≡ Some wait → EventFits (first_key wait.choose) tuple.now }
    requires fits { (wait : Wait) → wait_at network.now state ≡ Some wait → All (λ instance. AllFit wait.choose tuple.now (Some instance.tuple)) (held stores.old state) }
    ensures taken { IsTakenAt network.now tuple.now state stores.old stores.new }
    ensures ticks { steps.new ≤ steps.old + length (candidates_at network.now (held stores.old) tuple.now state) }
{
    if let Some(wait) = network.wait(state) {
        take_in(stores.get_mut(state), &wait.choose, tuple, steps, spent);
    }
}

// Takes the instances out of a store that the tuple matches.
fn take_in<L: Ledger>(
    slot: &mut Option<Store>,
    choose: &Conj,
    tuple: &Tuple,
    steps: &mut Steps<L>,
    spent: &mut SpentBeads,
)
    requires is_key { IsKeyOf (key_in slot.old) choose.now }
    requires key { EventFits (key_in slot.old) tuple.now }
    requires fits { All (λ instance. AllFit choose.now tuple.now (Some instance.tuple)) (instances_in slot.old) }
    ensures instances { instances_in slot.new ≡ filter (λ instance. not (is_eligible choose.now instance.tuple tuple.now)) (instances_in slot.old) }
    ensures shape { shape_of slot.new ≡ shape_of slot.old }
    ensures ready { ready_in slot.new ≡ ready_in slot.old }
    ensures ticks { steps.new ≤ steps.old + length (candidates_of (key_in slot.old) tuple.now (instances_in slot.old)) }
{
    if let Some(store) = slot {
        store.take(tuple, choose, steps, spent);
    }
}

// Puts the beads of these states into their stores, and lowers the deadlines for them.
fn link_all(
    network: &Network,
    deadlines: &mut Deadlines,
    stores: &mut Stores,
    beads: &mut Beads,
    numbers: &[usize],
)
    requires stores { HasStores network.now stores.old }
    requires watches { Watches deadlines.old stores.old }
    requires numbers { All (λ number. number < length stores.old) numbers.now }
    requires beads { All (λ number. number < length beads.old) numbers.now }
    requires room { HaveRoom stores.old beads.old }
    requires once { (place : ℕ) → place < length numbers.now → Contains (take place numbers.now) (slice_index_or numbers.now place 0) → ⊥ }
    ensures linked { AreLinked numbers.now beads.old stores.old stores.new }
    ensures watches { Watches deadlines.new stores.new }
    ensures as_many { length beads.new ≡ length beads.old }
    ensures others { (number : ℕ) → (Contains numbers.now number → ⊥) → slice_index_or beads.new number [] ≡ slice_index_or beads.old number [] }
{
    for number in numbers {
        lower_at(network, deadlines, *number, beads.get(*number));
        link_in(stores.get_mut(*number), beads.get_mut(*number));
    }
}

// Puts beads into a store.
fn link_in(slot: &mut Option<Store>, beads: &mut Chain<Instance>)
    requires { HaveRoomIn slot.old beads.old }
    ensures instances { (store : Stored) → slot.old ≡ Some store → IsPermutation (instances_in slot.new) (instances_of store ++ beads.old) }
    ensures idle { beads.old ≡ [] → slot.new ≡ slot.old }
    ensures shape { shape_of slot.new ≡ shape_of slot.old }
    ensures ready { ready_in slot.new ≡ ready_in slot.old }
{
    if let Some(store) = slot {
        link(store, beads);
    }
}

// Puts beads into the store.
fn link(store: &mut Store, beads: &mut Chain<Instance>)
    requires { All (HasRoom (key_of store.old) (ready_of store.old)) beads.old }
    ensures instances { IsPermutation (instances_of store.new) (instances_of store.old ++ beads.old) }
    ensures idle { beads.old ≡ [] → store.new ≡ store.old }
    ensures condition { condition_of store.new ≡ condition_of store.old }
    ensures key { key_of store.new ≡ key_of store.old }
    ensures ready { ready_of store.new ≡ ready_of store.old }
{
    let mut walk = beads.walk();
    while let Some(bead) = walk.unlink() {
        store.link(bead);
    }
}
