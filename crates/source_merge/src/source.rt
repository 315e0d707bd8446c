//! The files of a merge, as far as they were read.
ghost use Rattle.std.specs.Prelude.{◌≡◌, if◌then◌else◌, option_map, replicate, IfOk};
ghost use Rattle.source_merge.specs.Sources.{bound, first_of, is_no_later, later, turn_in, unread, watermark};

use event_types::{List, Memory};
use std::alloc::Global;

/// A file as far as it was read: the greatest detection time of its events so far, if it had one, and whether it has
/// ended.
#[derive(Clone, Copy, Drop)]
pub(crate) struct Source {
    pub(crate) greatest: Option<u64>,
    pub(crate) ended: bool,
}

/// So many files of which nothing was read.
pub(crate) fn unread_sources(alloc: Global, files: usize) -> Result<List<Source>, Memory>
    ensures { IfOk result (λ sources. sources ≡ replicate files unread) }
{
    let mut sources = List::with_room(alloc, files)?;
    for number in 0..files {
        sources.add(Source {
            greatest: None,
            ended: false,
        })?;
    }
    Ok(sources)
}

/// The file whose turn it is, with its number, and the watermark.
pub(crate) fn turn_and_mark(
    slack: u64,
    sources: &[Source],
) -> (Option<(usize, Source)>, Option<u64>)
    ensures turn { result.0 ≡ turn_in sources.now }
    ensures mark { result.1 ≡ watermark slack sources.now }
{
    let turn = turn_in(sources);
    (turn, bound_at(slack, turn))
}

// The file whose turn it is: of those that haven't ended, the one whose greatest time so far is least.
fn turn_in(sources: &[Source]) -> Option<(usize, Source)>
    ensures { result ≡ turn_in sources.now }
{
    let mut turn = None;
    let mut file = sources.len();
    while 0 < file {
        file -= 1;
        turn = first_from(file, sources[file], turn);
    }
    turn
}

// Of a file and the one whose turn it is among those behind it, the one whose turn it is.
fn first_from(file: usize, source: Source, next: Option<(usize, Source)>) -> Option<(usize, Source)>
    ensures { result ≡ (if source.ended then next else first_of file source next) }
{
    if source.ended {
        return next;
    }
    match next {
        None => Some((file, source)),
        Some((_, other)) => {
            if is_no_later(source.greatest, other.greatest) {
                Some((file, source))
            } else {
                next
            }
        }
    }
}

// Whether a greatest time so far is no later than another.
fn is_no_later(greatest: Option<u64>, other: Option<u64>) -> bool
    ensures { result ≡ is_no_later greatest other }
{
    match (greatest, other) {
        (None, _) => true,
        (Some(_), None) => false,
        (Some(greatest), Some(other)) => greatest <= other,
    }
}

// The bound of the file whose turn it is, if there is one.
fn bound_at(slack: u64, turn: Option<(usize, Source)>) -> Option<u64>
    ensures { result ≡ option_map (λ next. bound slack next.1.greatest) turn }
{
    let (_, source) = turn?;
    Some(bound(slack, source.greatest))
}

/// The bound of a file by its greatest time so far: 0 where that would be negative, and where there is none.
pub(crate) fn bound(slack: u64, greatest: Option<u64>) -> u64
    ensures { result ≡ bound slack greatest }
{
    match greatest {
        None => 0,
        Some(greatest) => greatest.saturating_sub(slack),
    }
}

/// The greatest time of a file after an event of this time.
pub(crate) fn later(greatest: Option<u64>, at: u64) -> u64
    ensures { result ≡ later greatest at }
{
    match greatest {
        None => at,
        Some(greatest) => greatest.max(at),
    }
}
