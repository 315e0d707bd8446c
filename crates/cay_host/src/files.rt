//! The files of a host in memory, and the places to which they are read.
ghost use Rattle.std.specs.Prelude.{◌≡◌, ◌<◌, None, Some, MatchOption, length, min};
ghost use Rattle.cay_host.specs.Files.{find_file};
ghost use Rattle.cay_host.specs.Input.{Took};
ghost use Rattle.cay_host.specs.MemHost.{entries, bytes_at, rest_at};

/// A file: the bytes of its name, and its own.
#[derive(Drop)]
pub struct File {
    pub name: Vec<u8>,
    pub bytes: Vec<u8>,
}

/// How far a file was read: its index from 0, and its bytes so far.
#[derive(Clone, Copy, Drop)]
pub struct Place {
    pub file: usize,
    pub at: usize,
}

/// The index of the first file of that name.
pub fn find(files: &[File], name: &[u8]) -> Option<usize>
    ensures { MatchOption result (find_file name.now (entries files.now) ≡ None) (λ i. find_file name.now (entries files.now) ≡ Some (bytes_at files.now i)) }
{
    for (index, file) in files.iter().enumerate() {
        if file.name.as_slice() == name {
            return Some(index);
        }
    }
    None
}

/// Reads the next bytes at a place to the front of the buffer, at most `piece`, and moves the place
/// behind them.
pub fn read_at(files: &[File], place: &mut Place, piece: usize, buf: &mut [u8]) -> usize
    requires piece { 0 < piece }
    requires room { 0 < length buf.old }
    ensures took { Took result buf.new (Some (rest_at files.now place.old)) (Some (rest_at files.now place.new)) }
    ensures size { result ≡ min (min (length (rest_at files.now place.old)) piece) (length buf.old) }
{
    let bytes = bytes_of(files, place.file);
    if bytes.len() <= place.at {
        return 0;
    }
    let rest = &bytes[place.at..];
    let n = rest.len().min(piece).min(buf.len());
    buf[..n].copy_from_slice(&rest[..n]);
    place.at += n;
    n
}

// The bytes of the file at an index, or none.
fn bytes_of(files: &[File], index: usize) -> &[u8]
    ensures { result.now ≡ bytes_at files.now index }
{
    if index < files.len() {
        files[index].bytes.as_slice()
    } else {
        &[]
    }
}
