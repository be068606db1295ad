// Bitmaps in lent words: bit i, least first, of word b stands for place 64 b + i.
#![tactic(auto)]

ghost use Rattle.std.specs.Prelude.{◌≡◌, ◌||◌, ℕ, ◌+◌, ◌-◌, ◌*◌, ◌%◌, ◌^◌, ◌<◌, ◌≤◌, min, List, length, replicate};
ghost use Rattle.std.specs.Iterator.{YieldsFirst, item_count};
ghost use Rattle.meaning.specs.Limits.{block_words, table_entries};
ghost use Rattle.meaning.specs.Places.{below, src, bit_set, marked};
ghost use Rattle.bits.specs.SetBits.{set_places, set_in};
ghost use Rattle.bits.specs.Ranges.{end_of, next_set, between, Gains, set_range};

use limits::BLOCK_WORDS;
use std::marker::Model;

// Whether place p is marked; outside the bitmap none is.
#[tactic(auto, using(meaning::proofs::Bitmaps::marked_out), unfolding(meaning::specs::Places::marked))]
pub fn test(map: &[u64], p: usize) -> bool
    ensures { result ≡ marked map.now p }
{
    let b = p / BLOCK_WORDS;
    b < map.len() && (map[b] >> (p % BLOCK_WORDS)) % 2 == 1
}

// How many of the i lowest bits of a word are set.
pub fn ones_below(word: u64, i: u32) -> u32
    requires { i < block_words }
    ensures { result ≡ below (bit_set word) i }
{
    (word % (1u64 << i)).count_ones()
}

// How many bits of a word are set.
pub fn ones(word: u64) -> u32
    ensures { result ≡ below (bit_set word) block_words }
{
    word.count_ones()
}

// How many bits of the words are set.
fn count_words(words: &[u64]) -> usize
    requires { set_in words.now < 2 ^ 64 }
    ensures { result ≡ set_in words.now }
{
    words.iter().map(|word| ones(*word) as usize).sum()
}

// How many places below p are marked. That the words are few is asked here and wherever else places are counted, and not by a type:
// the words are slices that C lends, and a type would be made of them anew at each call.
pub fn count_below(map: &[u64], p: usize) -> usize
    requires { length map.now ≤ table_entries }
    ensures { result ≡ below (marked map.now) p }
{
    let b = p / BLOCK_WORDS;
    if map.len() <= b {
        return count_words(map);
    }
    count_words(&map[..b]) + ones_below(map[b], (p % BLOCK_WORDS) as u32) as usize
}

// The lowest marked place from p on.
pub fn next_set(map: &[u64], p: usize) -> Option<usize>
    requires { length map.now ≤ table_entries }
    ensures { result ≡ next_set map.now p }
{
    for b in p / BLOCK_WORDS..map.len() {
        let at = p.max(BLOCK_WORDS * b);
        let rest = map[b] >> (at % BLOCK_WORDS);
        if rest != 0 {
            return Some(at + rest.trailing_zeros() as usize);
        }
    }
    None
}

// The set bits of a word, seen as the list of those that are left, lowest first.
#[derive(Drop)]
pub struct SetBits(u64);

impl Model for SetBits {
    ghost Value = { List ℕ };

    ghost view = { λ s. set_places s.0 };
}

// The set bits of a word, lowest first.
pub fn set_bits(word: u64) -> SetBits
    ensures { result ≡ set_places word }
{
    SetBits(word)
}

impl Iterator for SetBits {
    type Item = usize;

    ghost next_gives = { YieldsFirst (λ rest. rest) };

    ghost remaining = { item_count (λ rest. rest) };

    #[inline(always)]
    fn next(&mut self) -> Option<usize> {
        if self.0 == 0 {
            return None;
        }
        let place = self.0.trailing_zeros() as usize;
        self.0 &= self.0 - 1;
        Some(place)
    }
}

// Set bit number n of a word: a half of what is left of it, from 64 bits on, is passed over each time.
pub fn select(word: u64, n: u32) -> u32
    requires { n < below (bit_set word) block_words }
    ensures { result ≡ src (bit_set word) block_words n }
{
    let mut rest = word;
    let mut left = n;
    let mut at: u32 = 0;
    for half in [32, 16, 8, 4, 2, 1] {
        let low = ones_below(rest, half);
        if low <= left {
            left -= low;
            rest >>= half;
            at += half;
        }
    }
    at
}

// The word with bits i to i + k - 1 set too.
fn fill_word(word: u64, i: u32, k: u32) -> u64
    requires { (0 < k) × (i + k ≤ block_words) }
    ensures { (j : ℕ) → bit_set result j ≡ bit_set word j || between i (i + k) j }
{
    word | ((u64::MAX >> (BLOCK_WORDS as u32 - k)) << i)
}

// Places at .. at + k - 1, all in one word, marked too.
pub fn set_part(map: &mut [u64], at: usize, k: usize)
    requires { (0 < k) × (at % block_words + k ≤ block_words) × (at < end_of map.old) }
    ensures { Gains map.old map.new at (at + k) }
{
    let b = at / BLOCK_WORDS;
    map[b] = fill_word(map[b], (at % BLOCK_WORDS) as u32, k as u32);
}

// How many of the places at .. to - 1 stand in the word of the first.
fn part_length(at: usize, to: usize) -> usize
    requires { at < to }
    ensures { result ≡ min (to - at) (block_words - at % block_words) }
{
    (to - at).min(BLOCK_WORDS - at % BLOCK_WORDS)
}

// Places from .. to - 1 marked too, part after part: where the next begins is told by the last, so no range counts them.
pub fn set_range(map: &mut [u64], from: usize, to: usize)
    requires { to ≤ end_of map.old }
    ensures { map.new ≡ set_range map.old from to }
{
    let mut at = from;
    while at < to {
        let k = part_length(at, to);
        set_part(map, at, k);
        at += k;
    }
}

// No place marked.
pub fn clear(map: &mut [u64])
    ensures { map.new ≡ replicate (length map.old) 0 }
{
    map.fill(0);
}
