//! A tournament tree: numbers behind their minima, two by two.
ghost use Rattle.std.specs.Prelude.{◌≡◌, ◌<◌, ◌≤◌, ◌-◌, ◌++◌, ℕ, drop, length, replicate, slice_index, slice_set, take};
ghost use Rattle.deadlines.specs.Tournament.{IsTournament, leaves_of};

/// Writes a number into a leaf. The leaves are counted from 0. Takes no memory.
pub(crate) fn set_leaf(nodes: &mut [u128], leaf: usize, number: u128)
    requires tournament { IsTournament nodes.old }
    requires leaf { leaf < length (leaves_of nodes.old) }
    ensures tournament { IsTournament nodes.new }
    ensures leaves { leaves_of nodes.new ≡ slice_set (leaves_of nodes.old) leaf number }
{
    let mut node = nodes.len() / 2 + leaf;
    nodes[node] = number;
    while node > 1 {
        node /= 2;
        let least = nodes[2 * node].min(nodes[2 * node + 1]);
        if nodes[node] == least {
            return;
        }
        nodes[node] = least;
    }
}

/// Writes a number into the leaves from one place on, up to another. Takes no memory.
pub(crate) fn fill_leaves(nodes: &mut [u128], from: usize, to: usize, number: u128)
    requires tournament { IsTournament nodes.old }
    requires from { from ≤ to }
    requires to { to ≤ length (leaves_of nodes.old) }
    ensures tournament { IsTournament nodes.new }
    ensures as_many { length (leaves_of nodes.new) ≡ length (leaves_of nodes.old) }
    ensures filled { take to (leaves_of nodes.new) ≡ take from (leaves_of nodes.old) ++ replicate (to - from) number }
    ensures others { drop to (leaves_of nodes.new) ≡ drop to (leaves_of nodes.old) }
{
    for leaf in from..to {
        set_leaf(nodes, leaf, number);
    }
}

/// The first leaf whose number is at most `most`, where there is one. Takes no memory.
pub(crate) fn first_leaf(nodes: &[u128], most: u128) -> usize
    requires tournament { IsTournament nodes.now }
    requires is_there { slice_index nodes.now 1 ≤ most }
    ensures within { result < length (leaves_of nodes.now) }
    ensures found { slice_index (leaves_of nodes.now) result ≤ most }
    ensures before { (leaf : ℕ) → leaf < result → most < slice_index (leaves_of nodes.now) leaf }
{
    let first = nodes.len() / 2;
    let mut node = 1;
    while node < first {
        node *= 2;
        if most < nodes[node] {
            node += 1;
        }
    }
    node - first
}
