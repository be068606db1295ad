// An image's bytes: its contents judged, and its bodies copied out as words.
#![tactic(auto)]

ghost use Rattle.std.specs.Prelude.{◌≡◌, ℕ, ◌+◌, ◌*◌, ◌<◌, ◌≤◌, List, length, map};
ghost use Rattle.meaning.specs.Image.{word_at, pair_at, contents_of, shaped, sized, judged_contents};
ghost use Rattle.meaning.specs.Places.{up_to};
ghost use Rattle.image.specs.Judging.{table_of};
ghost use Rattle.refusals.specs.Paper.{answer_of};

use limits::{BLOCK_WORDS, blocks_of};
use refusals::Refusal;

// The program's own limits, which stay when the library's grow: words of a heap, at most.
pub const MOST_WORDS: usize = 8192;

// Root slots, at most.
pub const MOST_ROOTS: usize = 64;

// Entries of a block order, at most.
pub const MOST_STEPS: usize = 128;

// Words of a mark bitmap for the largest heap.
pub const MOST_BLOCKS: usize = MOST_WORDS / BLOCK_WORDS;

// A body's start and length, in words.
#[derive(Clone, Copy)]
pub struct Part {
    pub start: u32,
    pub length: u32,
}

impl Part {
    // Words number i and i + 1.
    fn read(bytes: &[u8], i: usize) -> Part
        requires { 4 * i + 7 < length bytes.now }
        ensures { (result.start ≡ word_at bytes.now i) × (result.length ≡ word_at bytes.now (i + 1)) }
    {
        Part {
            start: word(bytes, i),
            length: word(bytes, i + 1),
        }
    }

    // Of 64 bits, so that it never wraps.
    fn end(self) -> u64
        ensures { result ≡ self.start + self.length }
    {
        u64::from(self.start) + u64::from(self.length)
    }
}

// The ten words: 1 (`kind` may be any number, and is judged), the top, then start and length for heap, roots, marks and order.
#[derive(Clone, Copy)]
pub struct Contents {
    pub kind: u32,
    pub top: u32,
    pub heap: Part,
    pub roots: Part,
    pub marks: Part,
    pub order: Part,
}

impl Contents {
    // Whether the bodies follow one another from word 10.
    fn is_shaped(self) -> bool
        ensures { result ≡ shaped (table_of self) }
    {
        self.kind == 1
            && self.heap.start == 10
            && u64::from(self.roots.start) == self.heap.end()
            && u64::from(self.marks.start) == self.roots.end()
            && u64::from(self.order.start) == self.marks.end()
            && self.marks.length % 2 == 0
    }

    // Refusal 1, from the contents alone: whether the sizes fit.
    fn is_sized(self) -> bool
        ensures { result ≡ sized (table_of self) }
    {
        self.heap.length as usize <= MOST_WORDS
            && self.top <= self.heap.length
            && self.roots.length as usize <= MOST_ROOTS
            && self.marks.length as usize / 2 == blocks_of(self.heap.length as usize)
            && self.order.length as usize <= MOST_STEPS
    }
}

// Word number i, little-endian.
#[tactic(auto, unfolding(meaning::specs::Image::word_at))]
fn word(bytes: &[u8], i: usize) -> u32
    requires { 4 * i + 3 < length bytes.now }
    ensures { result ≡ word_at bytes.now i }
{
    let at = 4 * i;
    u32::from_le_bytes([bytes[at], bytes[at + 1], bytes[at + 2], bytes[at + 3]])
}

// Values that an image holds in one or two words.
pub trait InWords: Copy {
    // how many words hold a value, and value number k of those that start at word number `from`
    ghost words: { ℕ };

    ghost value: { List ℕ → ℕ → ℕ → Self };

    fn read(bytes: &[u8], from: usize, k: usize) -> Self
        requires { 4 * (from + words * (k + 1)) ≤ length bytes.now }
        ensures { result ≡ value bytes.now from k };
}

impl InWords for u32 {
    ghost words = { 1 };

    ghost value = { λ bytes from k. word_at bytes (from + k) };

    fn read(bytes: &[u8], from: usize, k: usize) -> u32 {
        word(bytes, from + k)
    }
}

// The low half first; out of two words, as the contents say it, and not out of eight bytes.
impl InWords for u64 {
    ghost words = { 2 };

    ghost value = { λ bytes from k. pair_at bytes (from + 2 * k) };

    fn read(bytes: &[u8], from: usize, k: usize) -> u64 {
        let low = word(bytes, from + 2 * k);
        let high = word(bytes, from + 2 * k + 1);
        u64::from(low) + 4294967296 * u64::from(high)
    }
}

#[tactic(auto, unfolding(meaning::specs::Image::contents_of))]
fn ten_words(bytes: &[u8]) -> Contents
    requires { 40 ≤ length bytes.now }
    ensures { table_of result ≡ contents_of bytes.now }
{
    Contents {
        kind: word(bytes, 0),
        top: word(bytes, 1),
        heap: Part::read(bytes, 2),
        roots: Part::read(bytes, 4),
        marks: Part::read(bytes, 6),
        order: Part::read(bytes, 8),
    }
}

// Refusal 14 for contents of another shape, then 1, then 14 for bodies that are short or followed by anything.
#[tactic(auto, unfolding(meaning::specs::Image::judged_contents))]
pub fn judge(bytes: &[u8]) -> Result<Contents, Refusal>
    ensures { answer_of table_of result ≡ judged_contents bytes.now }
{
    if bytes.len() < 40 {
        return Err(Refusal::BadImage);
    }
    let contents = ten_words(bytes);
    if !contents.is_shaped() {
        return Err(Refusal::BadImage);
    }
    if !contents.is_sized() {
        return Err(Refusal::Sizes);
    }
    if bytes.len() as u64 != 4 * contents.order.end() {
        return Err(Refusal::BadImage);
    }
    Ok(contents)
}

// Fills the buffer with the values from word number `from` on.
#[tactic(auto, using(std::proofs::lemmas::Grind::common_steps, crate::proofs::Copied::table_none, crate::proofs::Copied::table_more))]
pub fn copy<T: InWords>(bytes: &[u8], from: usize, buffer: &mut [T])
    requires { 4 * (from + T.words * length buffer.old) ≤ length bytes.now }
    ensures { buffer.new ≡ map (T.value bytes.now from) (up_to (length buffer.old)) }
{
    for (k, entry) in buffer.iter_mut().enumerate() {
        *entry = T::read(bytes, from, k);
    }
}
