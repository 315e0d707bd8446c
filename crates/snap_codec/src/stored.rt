//! What has bytes in a snapshot.
ghost use Rattle.std.specs.Prelude.{◌≡◌, ◌++◌, ℕ, List, OnOk, Result};
ghost use Rattle.snap_codec.specs.Answers.{Gives};
ghost use Rattle.snap_codec.specs.declared.fault.SnapFault.{SnapFault};

use crate::fault::SnapFault;
use event_types::Memory;
use std::alloc::Global;

/// What has bytes in a snapshot, and is read again from the front of some.
pub(crate) trait Stored {
    ghost bytes_of: { Self → List ℕ };

    ghost read_at: { ℕ → List ℕ → Result (Self × List ℕ) SnapFault };

    /// Puts the bytes at the end.
    fn write(&self, out: &mut Vec<u8>) -> Result<(), Memory>
        ensures { OnOk result (out.new.items ≡ out.old.items ++ bytes_of self.now) };

    /// The value at the front of these bytes, which end so many bytes behind the begin of the snapshot, and the bytes
    /// behind it.
    fn read(alloc: Global, total: usize, bytes: &[u8]) -> Result<(Self, &[u8]), SnapFault>
        ensures { Gives (λ x. (x.0, x.1.now)) result (read_at total bytes.now) };
}
