//! The first reader of each query: while it isn't taken, no query before it waits for that query.
ghost use Rattle.std.specs.Prelude.{◌≡◌, ◌<◌, ◌≤◌, ℕ, true, length, List, IfOk, slice_index, slice_index_or};
ghost use Rattle.std.specs.List.{All};
ghost use Rattle.resubscribe.specs.Order.{is_among, reads_of};
ghost use Rattle.resubscribe.specs.Readers.{AreBefore, Lowers};

use crate::ordering::Reads;
use event_types::Memory;
use std::alloc::Global;

/// For each query by its number, from 0, that of its first reader, and the number of all queries where none reads it: no
/// query before its entry reads it.
pub fn first_readers(alloc: Global, reads: &Reads) -> Result<Vec<usize>, Memory>
    requires { All (λ numbers. All (λ number. number < length reads.now) numbers) reads.now }
    ensures { IfOk result (λ firsts. AreBefore firsts.items reads.now (length reads.now)) }
{
    let mut firsts = vec![in alloc; reads.len(); reads.len()]?;
    for reader in 0..reads.len() {
        lower(&mut firsts, reads.get(reader).as_slice(), reader);
    }
    Ok(firsts)
}

// Lowers the entries of what is read to the reader.
fn lower(firsts: &mut [usize], reads: &[usize], reader: usize)
    requires { All (λ number. number < length firsts.old) reads.now }
    ensures { Lowers firsts.old firsts.new reads.now reader }
{
    for read in reads {
        if reader < firsts[*read] {
            firsts[*read] = reader;
        }
    }
}
