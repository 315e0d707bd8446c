//! The place in a feed's bytes up to which lines were taken, and the search for the next line.
ghost use Rattle.std.specs.Prelude.{◌≡◌, ◌+◌, ◌-◌, ◌≤◌, true, [], ◌∷◌, length, drop, slice_index, MatchOption};
ghost use Rattle.std.specs.Str.Lines.{strip_carriage_return};
ghost use Rattle.csv.specs.Reading.{is_bom, strip_bom};
ghost use Rattle.event_csv.specs.Lines.{begins_with_field, is_header as header_test, line_limit};
ghost use Rattle.event_csv.specs.Fed.{HandsOutLines, IsLine, TakesFromFeed, line_feeds_in, line_feeds_so_far};
ghost use Rattle.event_csv.specs.Place.{BegunOrShort, IsFeedAt, IsPlace, NoFeed, fed_at, is_skipped as skip_test, met_after};

use crate::got::Got;
use memchr::memchr;

/// The greatest number of bytes of a line that is read.
pub(crate) const LINE_LIMIT: usize = 65_536;

/// A place in the bytes: those before `start` are gone, and from there up to `searched` is no line feed.
#[derive(Clone, Copy)]
pub(crate) struct Place {
    pub(crate) gone: u64,
    pub(crate) begun: bool,
    pub(crate) met: bool,
    pub(crate) start: usize,
    pub(crate) searched: usize,
}

/// Takes the next line, past those that are empty and the header.
#[inline(always)]
pub(crate) fn take_line<'b>(bytes: &'b [u8], place: &mut Place) -> Got<'b>
    requires { IsPlace bytes.now place.old }
    ensures place { IsPlace bytes.now place.new }
    ensures begun { BegunOrShort bytes.now place.new }
    ensures taken { TakesFromFeed (fed_at bytes.now place.old) (fed_at bytes.now place.new) result }
    ensures feeds { line_feeds_so_far (fed_at bytes.now place.new) ≡ line_feeds_so_far (fed_at bytes.now place.old) }
{
    pass_mark(bytes, place);
    'lines: while let Some(end) = next_line_feed(bytes, place.searched) {
        if end - place.start > LINE_LIMIT {
            return Got::Long {
                number: place.gone + 1,
            };
        }
        let number = place.gone + 1;
        if let Some(line) = pass_line(bytes, place, end) {
            return Got::Line {
                number,
                bytes: line,
            };
        }
    }
    place.searched = bytes.len();
    if bytes.len() - place.start > LINE_LIMIT {
        return Got::Long {
            number: place.gone + 1,
        };
    }
    Got::NotYet
}

// Passes a mark at the front of the text, once there are the three bytes that show it.
#[inline(always)]
fn pass_mark(bytes: &[u8], place: &mut Place)
    requires { IsPlace bytes.now place.old }
    ensures place { IsPlace bytes.now place.new }
    ensures given { HandsOutLines [] (fed_at bytes.now place.old) (fed_at bytes.now place.new) }
    ensures feeds { line_feeds_so_far (fed_at bytes.now place.new) ≡ line_feeds_so_far (fed_at bytes.now place.old) }
    ensures begun { BegunOrShort bytes.now place.new }
    ensures forward { place.old.start ≤ place.new.start }
{
    if place.begun || bytes.len() - place.start < 3 {
        return;
    }
    let start = place.start + mark_len(&bytes[place.start..]);
    place.searched = place.searched.max(start);
    place.start = start;
    place.begun = true;
}

// The length of the mark at the front of a text of three bytes or more: 3 or 0.
fn mark_len(text: &[u8]) -> usize
    requires { 3 ≤ length text.now }
    ensures within { result ≤ 3 }
    ensures mark { strip_bom text.now ≡ drop result text.now }
    ensures feeds { line_feeds_in (drop result text.now) ≡ line_feeds_in text.now }
{
    if is_mark(text) { 3 } else { 0 }
}

fn is_mark(text: &[u8]) -> bool
    requires { 3 ≤ length text.now }
    ensures { result ≡ is_bom (slice_index text.now 0) (slice_index text.now 1) (slice_index text.now 2) }
{
    text[0] == 0xEF && text[1] == 0xBB && text[2] == 0xBF
}

// The first line feed from a place on.
fn next_line_feed(bytes: &[u8], from: usize) -> Option<usize>
    requires { from ≤ length bytes.now }
    ensures { MatchOption result (NoFeed bytes.now from (length bytes.now)) (λ end. IsFeedAt bytes.now from end) }
{
    let at = memchr(b'\n', &bytes[from..])?;
    Some(from + at)
}

// Passes the line that ends at `end`, and gives it unless it is passed over.
#[inline(always)]
fn pass_line<'b>(bytes: &'b [u8], place: &mut Place, end: usize) -> Option<&'b [u8]>
    requires place { IsPlace bytes.now place.old }
    requires feed { IsFeedAt bytes.now place.old.start end }
    requires short { end - place.old.start ≤ line_limit }
    requires begun { BegunOrShort bytes.now place.old }
    ensures moved { place.new.start ≡ end + 1 }
    ensures begun { place.new.begun ≡ true }
    ensures place { IsPlace bytes.now place.new }
    ensures given { MatchOption result (HandsOutLines [] (fed_at bytes.now place.old) (fed_at bytes.now place.new))
        (λ line. HandsOutLines (record { number = place.old.gone + 1; bytes = line.now } ∷ []) (fed_at bytes.now place.old) (fed_at bytes.now place.new) × IsLine line.now) }
    ensures feeds { line_feeds_so_far (fed_at bytes.now place.new) ≡ line_feeds_so_far (fed_at bytes.now place.old) }
{
    let line = without_return(&bytes[place.start..end]);
    let skipped = is_skipped(line, place.met);
    let met = is_met_after(line, place.met);
    *place = Place {
        gone: place.gone + 1,
        begun: true,
        met,
        start: end + 1,
        searched: end + 1,
    };
    if skipped { None } else { Some(line) }
}

/// The line without the one carriage return that may end it.
pub(crate) fn without_return(line: &[u8]) -> &[u8]
    ensures { result.now ≡ strip_carriage_return line.now }
{
    match line {
        [front @ .., b'\r'] => front,
        _ => line,
    }
}

/// Whether a line is passed over: it is empty, or the header, which may come first.
pub(crate) fn is_skipped(line: &[u8], met: bool) -> bool
    requires { length line.now ≤ line_limit }
    ensures { result ≡ skip_test met line.now }
{
    line.is_empty() || (!met && is_header(line))
}

// Whether a line that isn't empty was met, this one included.
fn is_met_after(line: &[u8], met: bool) -> bool
    ensures { result ≡ met_after met line.now }
{
    met || !line.is_empty()
}

fn is_header(line: &[u8]) -> bool
    requires { length line.now ≤ line_limit }
    ensures { result ≡ header_test line.now }
{
    has_first_field(b"stream", line) || has_first_field(b"\"stream\"", line)
}

fn has_first_field(name: &[u8], line: &[u8]) -> bool
    ensures { result ≡ begins_with_field name.now line.now }
{
    line.starts_with(name) && (line.len() == name.len() || line[name.len()] == b',')
}
