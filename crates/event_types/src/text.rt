//! Text in UTF-8.
ghost use Rattle.std.specs.Prelude.{◌≡◌, ◌≤◌, IfOk, IsTrue, IsUtf8, drop, length, refl, Some, take};
ghost use Rattle.std.specs.Int.{to_le_bytes, w16, w32, w64};
ghost use Rattle.event_types.specs.Held.{IsHeld, held_bytes};
ghost use Rattle.std.specs.Ordering.{nat_cmp};
ghost use Rattle.std.specs.Str.{bytes_eq};
ghost use Rattle.std.specs.Hash as fed;
ghost use Rattle.std.specs.Cmp.{partial_equiv_from_equiv};
ghost use Rattle.std.specs.Cmp.Rules.{hashing};
ghost use Rattle.std.specs.Cmp.Lexicographic.{slice_cmp, nat_list_eq_equiv, nat_list_cmp_total, texts_ties, texts_po};
ghost use Rattle.std.proofs.Common.{rules};

use crate::list::{Copied, List};
use crate::memory::Memory;
use std::alloc::Global;
use std::cmp::Ordering;
use std::hash::{Hash, Hasher};
use std::marker::Model;
use std::rc::RcStr;
use std::str::from_utf8_unchecked;

/// A text that owns its bytes, a long one together with its copies. Texts are ordered by bytes.
#[derive(Drop)]
pub struct Text {
    held: Held,
}

// The bytes of a text: few in place, more on the heap, where copies share them.
#[derive(Drop)]
enum Held {
    Short(u8, [u8; SHORT]),
    Long(RcStr),
}

// The most bytes that are held in place.
const SHORT: usize = 14;

impl Model for Text {
    ghost use Rattle.std.specs.Prelude.{List, ℕ};
    ghost use Rattle.event_types.specs.Held.{IsHeld, held_bytes};

    ghost Value = { List ℕ };

    ghost view = { λ t. held_bytes t.held };

    ghost invariant = { λ t. IsHeld t.held };
}

/// Names of streams, queries or attributes.
pub type Names = List<Text>;

impl Text {
    /// The text with the bytes of `source`. Up to 14 bytes stand in place and take no memory.
    pub fn make(alloc: Global, source: &str) -> Result<Text, Memory>
        ensures { IfOk result (λ text. text ≡ source.now) }
    {
        if source.len() <= SHORT {
            return Ok(Text {
                held: short_of(source),
            });
        }
        let held = RcStr::from_str(alloc, source)?;
        Ok(Text {
            held: Held::Long(held),
        })
    }

    /// The bytes, which are UTF-8. Takes no memory.
    pub fn as_str(&self) -> &str
        ensures { result.now ≡ self.now }
    {
        match &self.held {
            Held::Short(len, bytes) => text_of(&bytes[..*len as usize]),
            Held::Long(held) => held.as_str(),
        }
    }
}

// A short text, held in place.
fn short_of(source: &str) -> Held
    requires { length source.now ≤ 14 }
    ensures held { IsHeld result }
    ensures bytes { held_bytes result ≡ source.now }
{
    let mut bytes = [0u8; SHORT];
    bytes[..source.len()].copy_from_slice(source.as_bytes());
    Held::Short(source.len() as u8, bytes)
}

// Whether bytes of one length that are held in place are found to be the same at once: eight, four and two of them, with
// whatever stands behind the text.
#[inline(always)]
fn are_same(bytes: &[u8; SHORT], others: &[u8; SHORT]) -> bool
    ensures { IsTrue result → bytes.now ≡ others.now }
{
    front(bytes) == front(others) && middle(bytes) == middle(others) && back(bytes) == back(others)
}

// The first eight bytes, as a number.
#[inline(always)]
fn front(bytes: &[u8; SHORT]) -> u64
    ensures { to_le_bytes w64 result ≡ take 8 bytes.now }
{
    u64::from_le_bytes([
        bytes[0], bytes[1], bytes[2], bytes[3], bytes[4], bytes[5], bytes[6], bytes[7],
    ])
}

// The four bytes behind them, as a number.
#[inline(always)]
fn middle(bytes: &[u8; SHORT]) -> u32
    ensures { to_le_bytes w32 result ≡ take 4 (drop 8 bytes.now) }
{
    u32::from_le_bytes([bytes[8], bytes[9], bytes[10], bytes[11]])
}

// The last two bytes, as a number.
#[inline(always)]
fn back(bytes: &[u8; SHORT]) -> u16
    ensures { to_le_bytes w16 result ≡ drop 12 bytes.now }
{
    u16::from_le_bytes([bytes[12], bytes[13]])
}

// The text of bytes that were taken from one.
fn text_of(bytes: &[u8]) -> &str
    requires { IsUtf8 bytes.now }
    ensures { result.now ≡ bytes.now }
{
    unsafe { from_utf8_unchecked(bytes) }
}

impl PartialEq for Text {
    ghost eq = { bytes_eq };

    ghost laws = { partial_equiv_from_equiv nat_list_eq_equiv };

    #[inline(always)]
    fn eq(&self, other: &Self) -> bool {
        match (&self.held, &other.held) {
            (Held::Short(len, bytes), Held::Short(other_len, others))
                if *len == *other_len && are_same(bytes, others) => { true }
            _ => self.as_str() == other.as_str(),
        }
    }
}

impl Eq for Text {
    ghost laws = { nat_list_eq_equiv };
}

impl PartialOrd for Text {
    ghost partial_cmp = { λ x y. Some (slice_cmp nat_cmp x y) };

    ghost laws = { texts_po };

    fn partial_cmp(&self, other: &Self) -> Option<Ordering> {
        Some(self.cmp(other))
    }
}

impl Ord for Text {
    ghost cmp = { slice_cmp nat_cmp };

    ghost total = { nat_list_cmp_total };

    ghost matches_partial_cmp = { λ x y. refl };

    ghost matches_eq = { λ x y. texts_ties x y };

    fn cmp(&self, other: &Self) -> Ordering {
        self.as_str().cmp(other.as_str())
    }
}

impl Hash for Text {
    ghost hash_input = { λ t. fed.str t };

    ghost respects_eq = { Prim.search (hashing, rules) };

    fn hash<H: Hasher>(&self, state: &mut H) {
        self.as_str().hash(state);
    }
}

/// A copy takes no memory: long texts share their bytes.
impl Copied for Text {
    fn copied(&self, _alloc: Global) -> Result<Self, Memory> {
        match &self.held {
            Held::Short(len, bytes) => Ok(Text {
                held: Held::Short(*len, *bytes),
            }),
            Held::Long(held) => Ok(Text {
                held: Held::Long(held.clone()?),
            }),
        }
    }
}
