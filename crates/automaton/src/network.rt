//! Networks: states with forward edges between them.
ghost use Rattle.std.specs.Prelude.{◌≡◌, ◌<◌, IsTrue, length, count_by, is_some, Some};
ghost use Rattle.std.specs.Option.{option_copied};
ghost use Rattle.automaton.specs.Networks.{IsNetwork};
ghost use Rattle.automaton.specs.States.{edges_at, ends_at, is_used, root_at, state_at, step_at, wait_at};

mod growing;

use crate::line::Hop;
use crate::step::Step;
use crate::wait::Wait;
use event_types::{List, Numbers, StreamId};
use std::alloc::Global;
use std::marker::Model;

/// How a state is entered: a root state by the tuples of its stream, a waiting state through a hop from
/// the state before it.
#[derive(Drop)]
pub enum Entrance {
    Root(StreamId),
    Waiting { from: usize, hop: Hop },
}

/// The end of a line: its last step, the stream that it publishes, its number, and the birth of its query,
/// the last time that the query doesn't read, where there is one.
///
/// Ends that differ in the number alone may stand side by side.
#[derive(Drop)]
pub struct End {
    pub step: Step,
    pub out: StreamId,
    pub number: usize,
    pub birth: Option<u64>,
}

/// The ends at a state.
pub type Ends = List<End>;

/// A state: how it is entered, the numbers of the states to which its forward edges lead, and the ends
/// of the lines that reach it last.
#[derive(Drop)]
pub struct State {
    pub entrance: Entrance,
    pub edges: Numbers,
    pub ends: Ends,
}

/// Root states, waiting states, forward edges and ends. Each state has a number of its own, which it
/// keeps as long as it is there.
#[derive(Drop)]
pub struct Network {
    slots: Vec<Option<State>>,
    states: usize,
    // By the number of a waiting state, where the edge to it stands; looked at again before it is believed.
    edge_places: Numbers,
    no_step: Step,
}

impl Model for Network {
    ghost use Rattle.std.specs.Prelude.{List, Option};
    ghost use Rattle.automaton.specs.declared.network.State.{State};

    ghost Value = { List (Option State) };

    ghost use Rattle.std.specs.Coded.{coded_list, coded_option};
    ghost use Rattle.automaton.specs.contracts.network.State as state;

    ghost coded = { coded_list (coded_option state.the_row.coded) };

    ghost use Rattle.std.specs.Prelude.{◌≡◌, [], count_by, is_some};
    ghost use Rattle.automaton.specs.Networks.{IsNetwork};

    ghost view = { λ n. n.slots.items };

    ghost invariant = { λ n. (n.states ≡ count_by is_some n.slots.items) × (n.no_step ≡ []) × IsNetwork n.slots.items };
}

impl Network {
    // The network of these states, by their places.
    pub(crate) fn of(alloc: Global, slots: Vec<Option<State>>) -> Network
        requires network { IsNetwork slots.items }
        requires full { count_by is_some slots.items ≡ length slots.items }
        ensures { result ≡ slots.items }
    {
        Network {
            states: slots.len(),
            slots,
            edge_places: List::new(alloc),
            no_step: List::new(alloc),
        }
    }

    /// The number of states.
    pub fn states(&self) -> usize
        ensures { result ≡ count_by is_some self.now }
    {
        self.states
    }

    /// A number above those of all states.
    pub fn places(&self) -> usize
        ensures value { result ≡ length self.now }
        ensures network { IsNetwork self.now }
    {
        self.slots.len()
    }

    /// Whether a state has the number.
    pub fn used(&self, state: usize) -> bool
        requires { state < length self.now }
        ensures { result ≡ is_used self.now state }
    {
        self.slots[state].is_some()
    }

    // The state with the number.
    fn state(&self, state: usize) -> &State
        requires { IsTrue (is_used self.now state) }
        ensures { Some result.now ≡ state_at self.now state }
    {
        match &self.slots[state] {
            Some(found) => found,
            None => unreachable!(),
        }
    }

    /// The stream of a root state.
    pub fn root(&self, state: usize) -> Option<StreamId>
        requires { IsTrue (is_used self.now state) }
        ensures { result ≡ root_at self.now state }
    {
        match &self.state(state).entrance {
            Entrance::Root(stream) => Some(*stream),
            Entrance::Waiting { .. } => None,
        }
    }

    /// What a binding waits for at a waiting state.
    pub fn wait(&self, state: usize) -> Option<&Wait>
        requires { IsTrue (is_used self.now state) }
        ensures { option_copied result ≡ wait_at self.now state }
    {
        match &self.state(state).entrance {
            Entrance::Root(_) => None,
            Entrance::Waiting { hop, .. } => Some(&hop.wait),
        }
    }

    /// The step into a waiting state; at a root state it is empty.
    pub fn step(&self, state: usize) -> &Step
        requires { IsTrue (is_used self.now state) }
        ensures { result.now ≡ step_at self.now state }
    {
        match &self.state(state).entrance {
            Entrance::Root(_) => &self.no_step,
            Entrance::Waiting { hop, .. } => &hop.step,
        }
    }

    /// The numbers of the states to which forward edges lead.
    pub fn edges(&self, state: usize) -> &Numbers
        requires { IsTrue (is_used self.now state) }
        ensures { result.now ≡ edges_at self.now state }
    {
        &self.state(state).edges
    }

    /// The ends of the lines that reach the state last.
    pub fn ends(&self, state: usize) -> &Ends
        requires { IsTrue (is_used self.now state) }
        ensures { result.now ≡ ends_at self.now state }
    {
        &self.state(state).ends
    }
}
