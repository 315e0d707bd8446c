//! The pieces in which files are read.
ghost use Rattle.std.specs.Prelude.{◌≡◌, ◌+◌, min};

/// The most bytes that are read at once.
pub const PIECE: usize = 65536;

/// The size of the next piece where so many bytes more may be taken: it never passes their end by more
/// than one byte.
pub fn piece_size(room: u64) -> usize
    ensures { result ≡ min 65536 (room + 1) }
{
    if room < PIECE as u64 {
        room as usize + 1
    } else {
        PIECE
    }
}
