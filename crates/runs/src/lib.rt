// Bits set in a row, and words in a row moved down: a block move goes from run to run.
#![tactic(auto)]

ghost use Rattle.std.specs.Prelude.{◌≡◌, true, ◌+◌, ◌≤◌, ◌<◌, length};
ghost use Rattle.meaning.specs.Limits.{block_words};
ghost use Rattle.meaning.specs.Places.{bit_set};
ghost use Rattle.bits.proofs.BitLoop.{Left};
ghost use Rattle.runs.specs.Runs.{Run, copies, four_at, with_four};

// How many bits in a row are set from bit z on, or `most` if that is less.
pub fn run_length(word: u64, z: usize, most: usize) -> usize
    requires { (z < block_words) × (bit_set word z ≡ true) × (0 < most) }
    ensures { Run word z most result }
{
    let run = (!(word >> z)).trailing_zeros() as usize;
    run.min(most)
}

// What is left of a word from bit `at` on: shifted by one less, since no shift may be by 64.
pub fn left_from(word: u64, at: usize) -> u64
    requires { (0 < at) × (at ≤ block_words) }
    ensures { Left block_words word result at }
{
    ((word >> (at - 1)) / 2 * 2) << (at - 1)
}

// Four words in a row.
fn four_at(heap: &[u32], at: usize) -> [u32; 4]
    requires { at + 4 ≤ length heap.now }
    ensures { result ≡ four_at at heap.now }
{
    [heap[at], heap[at + 1], heap[at + 2], heap[at + 3]]
}

// Four words in a row stored at a place, each by itself: to copy the slice would test whether the array overlaps it.
fn put_four(heap: &mut [u32], at: usize, words: [u32; 4])
    requires { at + 4 ≤ length heap.old }
    ensures { heap.new ≡ with_four at words heap.old }
{
    heap[at] = words[0];
    heap[at + 1] = words[1];
    heap[at + 2] = words[2];
    heap[at + 3] = words[3];
}

// One to three words in a row go down to another place, given like all moves here by two places and a count, as `copy_within` has
// them. Some are stored twice: that is quicker than a branch.
fn move_few(heap: &mut [u32], from: usize, to: usize, count: usize)
    requires { (0 < count) × (count < 4) × (from + count ≤ length heap.old) × (to ≤ from) }
    ensures { heap.new ≡ copies from to count heap.old }
{
    let first = heap[from];
    let middle = heap[from + count / 2];
    let last = heap[from + (count - 1)];
    heap[to] = first;
    heap[to + count / 2] = middle;
    heap[to + (count - 1)] = last;
}

// Four words or more in a row go down to another place, four by four. The last four may overlap those before, so they are
// read first and stored last.
fn move_many(heap: &mut [u32], from: usize, to: usize, count: usize)
    requires { (4 ≤ count) × (from + count ≤ length heap.old) × (to ≤ from) }
    ensures { heap.new ≡ copies from to count heap.old }
{
    let rest = count - 4;
    let last = four_at(heap, from + rest);
    for i in (0..rest).step_by(4) {
        let words = four_at(heap, from + i);
        put_four(heap, to + i, words);
    }
    put_four(heap, to + rest, last);
}

// So many words in a row go down to another place, as if one after the other.
pub fn move_words(heap: &mut [u32], from: usize, to: usize, count: usize)
    requires { (0 < count) × (from + count ≤ length heap.old) × (to ≤ from) }
    ensures { heap.new ≡ copies from to count heap.old }
{
    if count < 4 {
        move_few(heap, from, to, count);
    } else {
        move_many(heap, from, to, count);
    }
}
