//! The nodes of a sum tree: numbers behind their sums, two by two.
ghost use Rattle.std.specs.Prelude.{◌≡◌, ◌<◌, ◌^◌, length, slice_set, take};
ghost use Rattle.std.specs.List.{sum};
ghost use Rattle.long_lists.specs.SumTree.{IsSumTree, IsUnitAt, leaves_of};

/// A block, and how much of it lies before a place in it.
#[derive(Clone, Copy)]
pub(crate) struct Spot {
    pub(crate) block: usize,
    pub(crate) offset: usize,
}

/// Writes a number into a leaf. The leaves are counted from 0. Takes no memory.
pub(crate) fn set_leaf(nodes: &mut [usize], leaf: usize, number: usize)
    requires tree { IsSumTree nodes.old }
    requires leaf { leaf < length (leaves_of nodes.old) }
    requires fits { sum (slice_set (leaves_of nodes.old) leaf number) < 2 ^ 64 }
    ensures tree { IsSumTree nodes.new }
    ensures leaves { leaves_of nodes.new ≡ slice_set (leaves_of nodes.old) leaf number }
{
    let mut node = nodes.len() / 2 + leaf;
    nodes[node] = number;
    while node > 1 {
        node /= 2;
        nodes[node] = nodes[2 * node] + nodes[2 * node + 1];
    }
}

/// The sum of the numbers of the leaves before one. Takes no memory.
pub(crate) fn sum_before(nodes: &[usize], leaf: usize) -> usize
    requires tree { IsSumTree nodes.now }
    requires leaf { leaf < length (leaves_of nodes.now) }
    ensures { result ≡ sum (take leaf (leaves_of nodes.now)) }
{
    let first = nodes.len() / 2;
    let mut node = 1;
    let mut span = first;
    let mut rest = leaf;
    let mut before = 0;
    while node < first {
        node *= 2;
        span /= 2;
        if span <= rest {
            rest -= span;
            before += nodes[node];
            node += 1;
        }
    }
    before
}

/// The leaf in which a unit lies, counted from 0 over the numbers of all leaves, and the units before it there.
/// Takes no memory.
pub(crate) fn find_leaf(nodes: &[usize], unit: usize) -> Spot
    requires tree { IsSumTree nodes.now }
    requires is_there { unit < sum (leaves_of nodes.now) }
    ensures { IsUnitAt (leaves_of nodes.now) unit result.block result.offset }
{
    let first = nodes.len() / 2;
    let mut node = 1;
    let mut offset = unit;
    while node < first {
        node *= 2;
        if nodes[node] <= offset {
            offset -= nodes[node];
            node += 1;
        }
    }
    Spot {
        block: node - first,
        offset,
    }
}
