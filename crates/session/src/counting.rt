//! The numbers of states and of hops.
ghost use Rattle.std.specs.Prelude.{◌≡◌, ◌-◌, ◌^◌, count_by, is_some, length, min, sum_by};
ghost use Rattle.automaton.specs.States.{root_in};

use automaton::{Line, Network};
use long_lists::LongList;

/// The number of root states. Takes no memory.
pub fn root_states(network: &Network) -> usize
    ensures { result ≡ count_by (λ slot. is_some (root_in slot)) network.now }
{
    let mut count = 0;
    for number in 0..network.places() {
        if network.used(number) && network.root(number).is_some() {
            count += 1;
        }
    }
    count
}

/// The number of the hops of all lines, or 2^64-1 where there are more. Takes no memory.
pub fn hops_of(lines: &LongList<Line>) -> usize
    ensures { result ≡ min (sum_by (λ line. length line.hops) lines.now) (2 ^ 64 - 1) }
{
    let mut count: usize = 0;
    for place in 0..lines.len() {
        count = count.saturating_add(lines.get(place).hops.len());
    }
    count
}
