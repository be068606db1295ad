// Cursors over the live words, and block moves.
#![tactic(auto)]

ghost use Rattle.std.specs.Prelude.{◌≡◌, ℕ, ◌*◌, ◌≤◌, ◌<◌, length, get_or, IfSome};
ghost use Rattle.meaning.specs.Limits.{heap_words, block_words, blocks_of};
ghost use Rattle.meaning.specs.Places.{below, bit_set};
ghost use Rattle.meaning.specs.Blocks.{step, run};
ghost use Rattle.blocks.specs.Cursors.{live_places, HasWord, Dropped, Before, Movable, block_end};

use limits::BLOCK_WORDS;

// A place among the live words: word `block` of the live bitmap, of which the set bits in `rest` are left. The bitmap is lent beside
// it: with the bitmap and the live word's number in it, each contract would have to name both in place of `Before`.
#[derive(Clone, Copy)]
pub struct Cursor {
    pub block: usize,
    pub rest: u64,
}

// A word without its n lowest set bits.
fn drop_low(word: u64, n: usize) -> u64
    requires { n ≤ below (bit_set word) block_words }
    ensures { Dropped word n result }
{
    let mut rest = word;
    for _ in 0..n {
        rest &= rest - 1;
    }
    rest
}

// The cursor before live word number j: whole words are skipped by their counts.
pub fn seek(live: &[u64], j: usize) -> Cursor
    requires { HasWord live.now j }
    ensures { Before live.now j result }
{
    let mut block: usize = 0;
    let mut left = j;
    // There is such a word: a `for` over the bitmap would need an answer for its end, which is never reached.
    loop {
        let count = bits::ones(live[block]) as usize;
        if left < count {
            return Cursor {
                block,
                rest: drop_low(live[block], left),
            };
        }
        left -= count;
        block += 1;
    }
}

// The end of step t's live words.
fn block_end(total: usize, t: usize) -> usize
    requires { (total ≤ heap_words) × (t < blocks_of total) }
    ensures { result ≡ block_end total t }
{
    (BLOCK_WORDS * t + BLOCK_WORDS).min(total)
}

// Step t: its live words go to their new places, one run of neighbours after the other. The cursor stands before the first of
// them, and then past the last. A turn takes a run or goes on to the next word, so no range counts the turns.
pub fn move_block(heap: &mut [u32], live: &[u64], total: usize, t: usize, from: Cursor) -> Cursor
    requires { Movable live.now total (length heap.old) × (t < blocks_of total) × Before live.now (block_words * t) from }
    ensures { (heap.new ≡ step (live_places live.now) t heap.old) × Before live.now (block_end total t) result }
{
    let end = block_end(total, t);
    let mut block = from.block;
    let mut rest = from.rest;
    let mut j = BLOCK_WORDS * t;
    while j < end {
        if rest == 0 {
            block += 1;
            rest = live[block];
        } else {
            let z = rest.trailing_zeros() as usize;
            let k = runs::run_length(rest, z, end - j);
            runs::move_words(heap, BLOCK_WORDS * block + z, j, k);
            rest = runs::left_from(rest, z + k);
            j += k;
        }
    }
    Cursor { block, rest }
}

// A cursor that an earlier step has left, and the step whose live words it stands before.
#[derive(Clone, Copy)]
struct AtHand {
    next: usize,
    cursor: Cursor,
}

// The cursor before step t's live words: the one at hand, if it stands there, or else one that is searched anew.
fn cursor_at(live: &[u64], t: usize, at_hand: Option<AtHand>) -> Cursor
    requires { HasWord live.now (block_words * t) × IfSome at_hand (λ h. t ≡ h.next → Before live.now (block_words * t) h.cursor) }
    ensures { Before live.now (block_words * t) result }
{
    match at_hand {
        Some(hand) if hand.next == t => hand.cursor,
        _ => seek(live, BLOCK_WORDS * t),
    }
}

// The steps of an order, one after the other: the cursor goes on from block to block, and is searched anew where the order jumps.
pub fn move_blocks(heap: &mut [u32], live: &[u64], total: usize, order: &[u32])
    requires { Movable live.now total (length heap.old) × ((i : ℕ) → i < length order.now → get_or order.now i 0 < blocks_of total) }
    ensures { heap.new ≡ run (live_places live.now) order.now heap.old }
{
    let mut at_hand = None;
    for t in order {
        let t = *t as usize;
        let cursor = move_block(heap, live, total, t, cursor_at(live, t, at_hand));
        at_hand = Some(AtHand {
            next: t + 1,
            cursor,
        });
    }
}
