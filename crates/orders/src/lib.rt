// The judge of an order from the offset table.
#![tactic(auto)]

ghost use Rattle.std.specs.Prelude.{◌≡◌, List, ℕ, ◌≤◌, ◌<◌, slice_get};
ghost use Rattle.meaning.specs.Limits.{heap_words, table_entries, blocks_of};
ghost use Rattle.meaning.proofs.TwoTargets.{goes_ok, early_by};
ghost use Rattle.orders.specs.Entries.{entry_at, step_breaks, length_breaks, entry_breaks, Bounded, Ticks};

use limits::{BLOCK_WORDS, TABLE_ENTRIES, blocks_of};

// The target blocks of so many live words: `blocks_of` under the name that its promise has in docs.
pub fn targets(total: usize) -> usize
    requires { total ≤ heap_words }
    ensures { result ≡ blocks_of total }
{
    blocks_of(total)
}

// Entry b of the offset table, and the total past its end. Table and total stay two here and below: a struct of them would be made
// for this one function.
fn entry(offsets: &[u32], total: usize, b: usize) -> usize
    ensures { result ≡ entry_at offsets.now total b }
{
    offsets.get(b).map_or(total, |&e| e as usize)
}

// Table `done` has a flag for each step, here and below. No list of the steps done is kept, so each contract takes any list that the
// flags are of, where a type would have to hold one.
// Whether block t's words that go to block k let its step run: k is t, or its step is done.
fn goes_ok(done: &[bool; TABLE_ENTRIES], t: usize, k: usize) -> bool
    requires { k < table_entries }
    ensures { (steps : List ℕ) → Ticks done.now steps → result ≡ goes_ok steps t k }
{
    (k == t) || done[k]
}

// Whether step t is too early: block t's live words are number lo to hi - 1.
fn early(done: &[bool; TABLE_ENTRIES], t: usize, lo: usize, hi: usize) -> bool
    requires { hi ≤ heap_words }
    ensures { (steps : List ℕ) → Ticks done.now steps → result ≡ early_by lo hi steps t }
{
    (lo < hi) && !(goes_ok(done, t, lo / BLOCK_WORDS) && goes_ok(done, t, (hi - 1) / BLOCK_WORDS))
}

// Whether an order breaks where step t comes next.
fn step_breaks(done: &[bool; TABLE_ENTRIES], offsets: &[u32], total: usize, t: usize) -> bool
    requires { Bounded offsets.now total }
    ensures { (steps : List ℕ) → Ticks done.now steps → result ≡ step_breaks offsets.now total steps t }
{
    (targets(total) <= t)
        || done[t]
        || early(
            done,
            t,
            entry(offsets, total, t),
            entry(offsets, total, t + 1),
        )
}

// Where an order of so many entries breaks that breaks at no position.
fn length_breaks(count: usize, blocks: usize) -> Option<usize>
    ensures { result ≡ slice_get (length_breaks count blocks) 0 }
{
    if count == blocks {
        None
    } else {
        Some(count.min(blocks))
    }
}

// The first position at which an order breaks: its entry is T or more, a repeat, or too early; else by its length.
pub fn judge(order: &[u32], offsets: &[u32], total: usize) -> Option<usize>
    requires { Bounded offsets.now total }
    ensures { result ≡ slice_get (entry_breaks offsets.now total order.now) 0 }
{
    let mut done = [false; TABLE_ENTRIES];
    for (i, &t) in order.iter().enumerate() {
        let t = t as usize;
        if step_breaks(&done, offsets, total, t) {
            return Some(i);
        }
        done[t] = true;
    }
    length_breaks(order.len(), targets(total))
}
