//! Directories are swept.
ghost use Rattle.std.specs.Prelude.{ℕ, [], slice_index_or};
ghost use Rattle.stream_readers.specs.KeyTables.{entries_at};
ghost use Rattle.stream_readers.specs.Sweeping.{IsSwept};

use crate::key_readers::Directories;
use binding_index::Store;
use event_types::List;

/// Sweeps the directories of all streams. Gives how much there is to look at next time. Takes no memory.
pub(crate) fn sweep_all(streams: &mut List<Directories>, stores: &[Option<Store>]) -> u64
    ensures { (stream attribute : ℕ) → IsSwept stores.now (entries_at streams.old stream attribute) (entries_at streams.new stream attribute) }
{
    let mut left: u64 = 0;
    for stream in 0..streams.len() {
        let more = sweep(streams.get_mut(stream), stores);
        left = left.saturating_add(more);
    }
    left
}

// Sweeps the directories of a stream. Gives how much there is to look at next time.
fn sweep(directories: &mut Directories, stores: &[Option<Store>]) -> u64
    ensures { (attribute : ℕ) → IsSwept stores.now (slice_index_or directories.old attribute []) (slice_index_or directories.new attribute []) }
{
    let mut left: u64 = 1;
    for attribute in 0..directories.len() {
        let directory = directories.get_mut(attribute);
        directory.sweep(stores);
        left = left.saturating_add(directory.pairs());
    }
    left
}
