//! States where instances wait.
use automaton::{Network, Wait};

/// A waiting state of a network: its number there, and what its instances wait for.
#[derive(Drop)]
pub(crate) struct WaitingState<'a> {
    pub network: &'a Network,
    pub state: usize,
    pub wait: &'a Wait,
}
