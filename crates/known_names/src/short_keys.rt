//! Short texts as numbers, which are compared at once.

ghost use Rattle.std.specs.Prelude.{◌≡◌, ◌≤◌, ◌-◌, length, drop, IfSome};
ghost use Rattle.std.specs.Int.{w8, w16, w32, w64};
ghost use Rattle.known_names.specs.ShortKeys.{IsShortText, first_number, key_by, short_key};

use std::hash::{FoldHasher, Hasher};

/// How many bytes a short text has at most.
pub(crate) const SHORT_BYTES: usize = 16;

/// A short text, told by its length and by the numbers that its first and its last bytes spell.
#[derive(Clone, Copy, PartialEq, Eq)]
pub(crate) struct ShortKey {
    pub(crate) head: u64,
    pub(crate) tail: u64,
    pub(crate) len: u32,
}

impl ShortKey {
    /// The key of a text, None where it is empty or long.
    #[inline(always)]
    pub(crate) fn of(text: &[u8]) -> Option<ShortKey>
        ensures key { IfSome result (λ key. key ≡ short_key text.now) }
        ensures short { IfSome result (λ key. IsShortText text.now) }
    {
        let len = text.len();
        if len == 0 || SHORT_BYTES < len {
            None
        } else if 8 <= len {
            Some(by_eights(text))
        } else if 4 <= len {
            Some(by_fours(text))
        } else if 2 <= len {
            Some(by_twos(text))
        } else {
            Some(by_ones(text))
        }
    }

    /// A hash of the text, by the library's hasher.
    #[inline(always)]
    pub(crate) fn hash(&self) -> u64 {
        let mut hasher = FoldHasher::default();
        hasher.write_u64(self.head);
        hasher.write_u64(self.tail);
        hasher.finish()
    }
}

/// The key of a text of 8 to 16 bytes.
#[inline(always)]
fn by_eights(text: &[u8]) -> ShortKey
    requires { (8 ≤ length text.now) × (length text.now ≤ SHORT_BYTES) }
    ensures { result ≡ key_by w64 8 text.now }
{
    let (_, last) = text.split_at(text.len() - 8);
    ShortKey {
        head: first_eight(text),
        tail: first_eight(last),
        len: text.len() as u32,
    }
}

/// The key of a text of 4 to 8 bytes.
#[inline(always)]
fn by_fours(text: &[u8]) -> ShortKey
    requires { (4 ≤ length text.now) × (length text.now ≤ SHORT_BYTES) }
    ensures { result ≡ key_by w32 4 text.now }
{
    let (_, last) = text.split_at(text.len() - 4);
    ShortKey {
        head: u64::from(first_four(text)),
        tail: u64::from(first_four(last)),
        len: text.len() as u32,
    }
}

/// The key of a text of 2 to 4 bytes.
#[inline(always)]
fn by_twos(text: &[u8]) -> ShortKey
    requires { (2 ≤ length text.now) × (length text.now ≤ SHORT_BYTES) }
    ensures { result ≡ key_by w16 2 text.now }
{
    let (_, last) = text.split_at(text.len() - 2);
    ShortKey {
        head: u64::from(first_two(text)),
        tail: u64::from(first_two(last)),
        len: text.len() as u32,
    }
}

/// The key of a text of 1 or 2 bytes.
#[inline(always)]
fn by_ones(text: &[u8]) -> ShortKey
    requires { (1 ≤ length text.now) × (length text.now ≤ SHORT_BYTES) }
    ensures { result ≡ key_by w8 1 text.now }
{
    let (_, last) = text.split_at(text.len() - 1);
    ShortKey {
        head: u64::from(first_one(text)),
        tail: u64::from(first_one(last)),
        len: text.len() as u32,
    }
}

/// The number that the first eight bytes spell.
#[inline(always)]
#[tactic(auto, unfolding(crate::specs::ShortKeys::first_number))]
fn first_eight(text: &[u8]) -> u64
    requires { 8 ≤ length text.now }
    ensures { result ≡ first_number w64 8 text.now }
{
    u64::from_le_bytes([
        text[0], text[1], text[2], text[3], text[4], text[5], text[6], text[7],
    ])
}

/// The number that the first four bytes spell.
#[inline(always)]
#[tactic(auto, unfolding(crate::specs::ShortKeys::first_number))]
fn first_four(text: &[u8]) -> u32
    requires { 4 ≤ length text.now }
    ensures { result ≡ first_number w32 4 text.now }
{
    u32::from_le_bytes([text[0], text[1], text[2], text[3]])
}

/// The number that the first two bytes spell.
#[inline(always)]
#[tactic(auto, unfolding(crate::specs::ShortKeys::first_number))]
fn first_two(text: &[u8]) -> u16
    requires { 2 ≤ length text.now }
    ensures { result ≡ first_number w16 2 text.now }
{
    u16::from_le_bytes([text[0], text[1]])
}

/// The first byte.
#[inline(always)]
#[tactic(auto, unfolding(crate::specs::ShortKeys::first_number))]
fn first_one(text: &[u8]) -> u8
    requires { 1 ≤ length text.now }
    ensures { result ≡ first_number w8 1 text.now }
{
    text[0]
}
