// The phases that change words where they stand: references sent on to the new places, and the tail zeroed.
#![tactic(auto)]

ghost use Rattle.std.specs.Prelude.{◌≡◌, true, map, ◌/◌, ◌<◌, ◌≤◌, length};
ghost use Rattle.meaning.specs.Limits.{block_words};
ghost use Rattle.meaning.specs.Values.{is_ref, place_of, ref_to};
ghost use Rattle.meaning.specs.Places.{below, marked};
ghost use Rattle.meaning.specs.Slide.{fix_word};
ghost use Rattle.meaning.proofs.CollectedHeap.{Fixed, Zeroed};
ghost use Rattle.fixing.specs.Fixable.{in_block, RootsFixable, Fixable};

use bits::set_bits;
use limits::{BLOCK_WORDS, TABLE_ENTRIES};
use tables::Tables;
use words::{Place, Word};

// The word of a reference, to the new place of what it refers to.
fn sent_on(word: u32, tables: Tables) -> u32
    requires { (is_ref word ≡ true) × (place_of word / block_words < length tables.live.now) }
    ensures { result ≡ ref_to (below (marked tables.entry.live.now) (place_of word)) }
{
    let target = Word::from_bits(word).target().number() as usize;
    Word::reference(Place::at(tables.new_place(target))).bits()
}

// A value word, sent on where it is a reference.
fn fix_root(word: u32, tables: Tables) -> u32
    requires { is_ref word ≡ true → place_of word / block_words < length tables.live.now }
    ensures { result ≡ fix_word (below (marked tables.entry.live.now)) word }
{
    if Word::from_bits(word).is_ref() {
        sent_on(word, tables)
    } else {
        word
    }
}

// Every root that is a reference sent on.
pub fn fix_roots(roots: &mut [u32], tables: Tables)
    requires { RootsFixable roots.old tables.live.now }
    ensures { roots.new ≡ map (fix_word (below (marked tables.entry.live.now))) roots.old }
{
    for word in roots.iter_mut() {
        *word = fix_root(*word, tables);
    }
}

// The references of block b, whose bits are set in a word, sent on.
fn fix_block(heap: &mut [u32], b: usize, word: u64, tables: Tables)
    requires { Fixable (in_block b word) heap.old tables.live.now }
    ensures { Fixed (in_block b word) (below (marked tables.entry.live.now)) heap.old heap.new }
{
    for i in set_bits(word) {
        let at = &mut heap[BLOCK_WORDS * b + i];
        *at = sent_on(*at, tables);
    }
}

// The references of the heap, whose places are marked in refs, sent on.
pub fn fix_fields(heap: &mut [u32], refs: &[u64; TABLE_ENTRIES], tables: Tables)
    requires { Fixable (marked refs.now) heap.old tables.live.now }
    ensures { Fixed (marked refs.now) (below (marked tables.entry.live.now)) heap.old heap.new }
{
    for b in 0..tables.live.len() {
        fix_block(heap, b, refs[b], tables);
    }
}

// The words from .. to - 1 zeroed.
pub fn zero_tail(heap: &mut [u32], from: usize, to: usize)
    requires { to ≤ length heap.old }
    ensures { Zeroed from to heap.old heap.new }
{
    heap[from.min(to)..to].fill(0);
}
