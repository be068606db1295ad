// Refusals 3, 4 and 5: the lowest stray mark, and the lowest root and field that refer to a place without a mark.
#![tactic(auto)]

ghost use Rattle.std.specs.Prelude.{◌≡◌, true, not, ◌&&◌, ℕ, ◌+◌, ◌*◌, ◌≤◌, length, position};
ghost use Rattle.meaning.specs.Limits.{block_words, table_entries};
ghost use Rattle.meaning.specs.Values.{is_ref, place_of};
ghost use Rattle.meaning.specs.Places.{bit_set, marked};
ghost use Rattle.meaning.specs.Collect.{dangling};
ghost use Rattle.search.specs.Search.{first_of, stray, ref_at, lost_at, bad_field, KeepsRefs, InHeap, HoldsRef, Each, EachIn};

use bits::{set_bits, test};
use limits::{BLOCK_WORDS, TABLE_ENTRIES};
use words::Word;

// The lowest bit of a word of marks that is no header's.
fn first_stray_in(marks: u64, headers: u64) -> Option<usize>
    ensures { result ≡ first_of (λ i. bit_set marks i && not (bit_set headers i)) block_words }
{
    set_bits(marks & !headers).next()
}

// The lowest mark that is at no header (for its loop see `first_bad_field`).
pub fn first_stray(marks: &[u64], headers: &[u64; TABLE_ENTRIES]) -> Option<usize>
    requires { length marks.now ≤ table_entries }
    ensures { result ≡ first_of (stray marks.now headers.now) (block_words * length marks.now) }
{
    for b in 0..marks.len() {
        if let Some(i) = first_stray_in(marks[b], headers[b]) {
            return Some(BLOCK_WORDS * b + i);
        }
    }
    None
}

// Whether the place that a reference is to has a mark.
fn target_marked(marks: &[u64], reference: u32) -> bool
    requires { is_ref reference ≡ true }
    ensures { result ≡ marked marks.now (place_of reference) }
{
    test(marks, Word::from_bits(reference).target().number() as usize)
}

// Whether a word is a reference to a place without a mark.
pub fn is_dangling(marks: &[u64], word: u32) -> bool
    ensures { result ≡ dangling (marked marks.now) word }
{
    Word::from_bits(word).is_ref() && !target_marked(marks, word)
}

// The lowest root slot that refers to a place without a mark.
pub fn first_bad_root(roots: &[u32], marks: &[u64]) -> Option<usize>
    ensures { result ≡ position (λ w. dangling (marked marks.now) w) roots.now }
{
    roots.iter().position(|root| is_dangling(marks, *root))
}

// Of the places of block b whose bits are set in a word, those that hold a reference; without a branch on what they hold.
fn refs_in(heap: &[u32], b: usize, word: u64) -> u64
    requires { EachIn (InHeap heap.now) b word }
    ensures { (i : ℕ) → bit_set result i ≡ bit_set word i && ref_at heap.now (block_words * b + i) }
{
    let mut refs: u64 = 0;
    for i in set_bits(word) {
        refs |= Word::from_bits(heap[BLOCK_WORDS * b + i]).ref_bit() << i;
    }
    refs
}

// Of the places that are marked in fields, those that hold a reference stay marked.
pub fn keep_refs(heap: &[u32], fields: &mut [u64; TABLE_ENTRIES])
    requires { Each (InHeap heap.now) fields.old }
    ensures { KeepsRefs heap.now fields.old fields.new }
{
    for (b, word) in fields.iter_mut().enumerate() {
        *word = refs_in(heap, b, *word);
    }
}

// The lowest of the references of block b, whose bits are set in a word, that is to a place without a mark.
fn first_bad_in(heap: &[u32], b: usize, refs: u64, marks: &[u64]) -> Option<usize>
    requires { EachIn (HoldsRef heap.now) b refs }
    ensures { result ≡ first_of (λ i. bit_set refs i && lost_at heap.now marks.now (block_words * b + i)) block_words }
{
    for i in set_bits(refs) {
        if !target_marked(marks, heap[BLOCK_WORDS * b + i]) {
            return Some(i);
        }
    }
    None
}

// The lowest of the references that is to a place without a mark. A loop that this and `first_stray` share would be given
// the search in a block as a closure, whose clauses are longer than the loop.
pub fn first_bad_field(heap: &[u32], marks: &[u64], refs: &[u64; TABLE_ENTRIES]) -> Option<usize>
    requires { (length marks.now ≤ table_entries) × Each (HoldsRef heap.now) refs.now }
    ensures { result ≡ first_of (bad_field heap.now marks.now refs.now) (block_words * length marks.now) }
{
    for block in 0..marks.len() {
        if let Some(i) = first_bad_in(heap, block, refs[block], marks) {
            return Some(BLOCK_WORDS * block + i);
        }
    }
    None
}
