//! The turns of queries in one of two orders.
ghost use Rattle.std.specs.Prelude.{◌≡◌, ◌<◌, AllPairs, IfOk, length};
ghost use Rattle.work_order.specs.Turns.{first_turns, rank_in};

use event_types::{Memory, Numbers};
use long_lists::LongList;
use std::alloc::Global;

/// A query's turn in an order in which it stands, and its turn in the other order.
#[derive(Clone, Copy, Drop)]
pub(crate) struct Turn {
    pub(crate) own: usize,
    pub(crate) other: usize,
}

/// Turns in an order whose own turns are the first ones, by the turns in the other order.
pub(crate) fn turns_of(alloc: Global, others: &Numbers) -> Result<LongList<Turn>, Memory>
    ensures { IfOk result (λ turns. turns ≡ first_turns others.now (length others.now)) }
{
    let mut turns = LongList::new(alloc);
    for own in 0..others.len() {
        let other = *others.get(own);
        turns.add(Turn { own, other })?;
    }
    Ok(turns)
}

/// The place at which an own turn stands, by halves; the guess is looked at first. Takes no memory.
pub(crate) fn find(turns: &LongList<Turn>, own: usize, guess: usize) -> usize
    requires rise { AllPairs (λ earlier later. earlier.own < later.own) turns.now }
    requires there { rank_in turns.now own < length turns.now }
    ensures { result ≡ rank_in turns.now own }
{
    if guess < turns.len() && turns.get(guess).own == own {
        return guess;
    }
    let mut first = 0;
    let mut end = turns.len();
    while first < end {
        let middle = first + (end - first) / 2;
        if turns.get(middle).own < own {
            first = middle + 1;
        } else {
            end = middle;
        }
    }
    first
}
