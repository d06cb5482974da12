ghost use Rattle.std.specs.Prelude.{◌≡◌, ◌≤◌, ◌<◌, ◌++◌, ◌∷◌, [], length, get_or, map};
ghost use Rattle.std.specs.List.{prefix_len, starts_with};
ghost use Rattle.std.specs.Prelude.{bytes_eq, nat_eq, slice_range, string_bytes, true, IfOk};
ghost use Rattle.std.specs.Str.{is_utf8};
ghost use Rattle.an_base.specs.TextSet.{Ascend, are_ends, ascending, has_text};
ghost use Rattle.an_base.specs.TextSet.{is_below, pieces, start_of};

use crate::copy::TryCopy;
use crate::text::Text;
use std::alloc::{AllocError, Global};
use std::collections::BTreeSet;
use std::marker::Model;
use std::str::from_utf8;

/// Texts, each once, ascending by their bytes, in one buffer: a text takes its bytes and four more.
/// Contracts see the list of them.
#[derive(Debug, Drop)]
pub struct TextSet {
    bytes: Vec<u8>,
    ends: Vec<u32>,
}

impl Model for TextSet {
    ghost use Rattle.std.specs.Prelude.{ℕ, List};
    ghost use Rattle.an_base.specs.TextSet.{pieces, ArePacked};

    ghost Value = { List (List ℕ) };

    ghost view = { λ s. pieces 0 s.ends.items s.bytes.items };

    ghost invariant = { λ s. ArePacked s.ends.items s.bytes.items };
}

impl TextSet {
    /// No text, which takes no memory.
    pub fn new(alloc: Global) -> TextSet
        ensures none { result ≡ [] }
    {
        TextSet {
            bytes: Vec::new(alloc),
            ends: Vec::new(alloc),
        }
    }

    /// The texts, each once, in no more memory than they need. Texts of 4 GiB together are refused
    /// as want of memory.
    pub fn of(alloc: Global, texts: &[Text]) -> Result<TextSet, AllocError>
        ensures value { IfOk result (λ s. s ≡ ascending texts.now) }
    {
        let mut found = BTreeSet::new(alloc);
        for text in texts {
            found.insert(String::from_str(alloc, text.as_str())?)?;
        }
        packed(alloc, found)
    }

    /// How many they are.
    pub fn len(&self) -> usize
        ensures length { result ≡ length self.now }
        ensures order { Ascend self.now }
    {
        self.ends.as_slice().len()
    }

    /// The text at this place, from 0.
    pub fn text(&self, place: usize) -> &str
        requires within { place < length self.now }
        ensures text { result.now ≡ get_or self.now place [] }
    {
        match from_utf8(self.bytes_at(place)) {
            Ok(text) => text,
            Err(_) => unreachable!(),
        }
    }

    /// The place of the first text that doesn't stand before this one, which is the text's own
    /// where it is one of them.
    pub fn place_of(&self, text: &str) -> usize
        ensures place { result ≡ prefix_len (is_below text.now) self.now }
    {
        let mut low = 0;
        let mut high = self.len();
        while low < high {
            let middle = low + (high - low) / 2;
            if self.is_below(middle, text) {
                low = middle + 1;
            } else {
                high = middle;
            }
        }
        low
    }

    /// Whether the text at this place begins with the prefix.
    pub fn begins(&self, place: usize, prefix: &str) -> bool
        requires within { place < length self.now }
        ensures begins { result ≡ starts_with nat_eq (get_or self.now place []) prefix.now }
    {
        self.bytes_at(place).starts_with(prefix.as_bytes())
    }

    /// Whether the text is one of them.
    pub fn has(&self, text: &str) -> bool
        ensures found { result ≡ has_text text.now self.now }
    {
        let place = self.place_of(text);
        place < self.len() && self.is_at(place, text)
    }

    /// The texts with one more, behind all.
    pub(crate) fn followed_by(self, text: &str) -> Result<TextSet, AllocError>
        requires order { Ascend (self ++ text.now ∷ []) }
        ensures value { IfOk result (λ s. s ≡ self ++ text.now ∷ []) }
    {
        let TextSet { bytes, ends } = self;
        let mut bytes = bytes;
        let mut ends = ends;
        bytes.extend_from_slice(text.as_bytes())?;
        let end = to_u32(bytes.len())?;
        ends.push(end)?;
        Ok(TextSet { bytes, ends })
    }

    /// The same texts, in no more memory than they need.
    pub(crate) fn shrunk(self) -> TextSet
        ensures same { result ≡ self }
    {
        let TextSet { bytes, ends } = self;
        let mut bytes = bytes;
        let mut ends = ends;
        bytes.shrink_to_fit();
        ends.shrink_to_fit();
        TextSet { bytes, ends }
    }

    fn bytes_at(&self, place: usize) -> &[u8]
        requires { place < length self.now }
        ensures bytes { result.now ≡ get_or self.now place [] }
        ensures utf8 { is_utf8 result.now ≡ true }
    {
        piece(self.bytes.as_slice(), self.ends.as_slice(), place)
    }

    /// Whether the text at this place stands before the other.
    fn is_below(&self, place: usize, text: &str) -> bool
        requires { place < length self.now }
        ensures { result ≡ is_below text.now (get_or self.now place []) }
    {
        self.bytes_at(place).cmp(text.as_bytes()).is_lt()
    }

    /// Whether the text stands at this place.
    fn is_at(&self, place: usize, text: &str) -> bool
        requires { place < length self.now }
        ensures { result ≡ bytes_eq (get_or self.now place []) text.now }
    {
        self.bytes_at(place) == text.as_bytes()
    }
}

impl TryCopy for TextSet {
    fn copy(&self) -> Result<TextSet, AllocError> {
        let alloc = *self.bytes.allocator();
        Ok(TextSet {
            bytes: Vec::from_slice(alloc, self.bytes.as_slice())?,
            ends: Vec::from_slice(alloc, self.ends.as_slice())?,
        })
    }
}

/// The texts of a set, one behind the other.
fn packed(alloc: Global, texts: BTreeSet<String>) -> Result<TextSet, AllocError>
    ensures { IfOk result (λ s. s ≡ map string_bytes texts.keys) }
{
    let mut set = TextSet::new(alloc);
    for text in texts {
        set = set.followed_by(text.as_str())?;
    }
    Ok(set.shrunk())
}

/// The number in 32 bits, if it has no more.
pub fn to_u32(n: usize) -> Result<u32, AllocError>
    ensures value { IfOk result (λ m. m ≡ n) }
{
    match u32::try_from(n) {
        Ok(n) => Ok(n),
        Err(_) => Err(AllocError),
    }
}

/// The text at a place of those that end at these places.
fn piece<'a>(bytes: &'a [u8], ends: &[u32], place: usize) -> &'a [u8]
    requires ends { are_ends 0 ends.now (length bytes.now) ≡ true }
    requires within { place < length ends.now }
    ensures { result.now ≡ get_or (pieces 0 ends.now bytes.now) place [] }
{
    part(bytes, start_of(ends, place), ends[place] as usize)
}

/// Where the text at a place begins: where the one before it ends.
fn start_of(ends: &[u32], place: usize) -> usize
    requires { place < length ends.now }
    ensures { result ≡ start_of ends.now place }
{
    if place == 0 {
        0
    } else {
        ends[place - 1] as usize
    }
}

fn part(bytes: &[u8], start: usize, end: usize) -> &[u8]
    requires order { start ≤ end }
    requires within { end ≤ length bytes.now }
    ensures { result.now ≡ slice_range bytes.now start end }
{
    &bytes[start..end]
}
