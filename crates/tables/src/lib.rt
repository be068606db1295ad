// The live and offset tables: filled from a scratch bitmap, and looked up both ways.
#![tactic(auto)]

ghost use Rattle.std.specs.Prelude.{◌≡◌, ◌/◌, ◌<◌, ◌≤◌, length, MatchResult};
ghost use Rattle.meaning.specs.Limits.{block_words, table_entries};
ghost use Rattle.meaning.specs.Places.{below, marked};
ghost use Rattle.meaning.specs.Lookups.{old_to_new, new_to_old};
ghost use Rattle.meaning.proofs.LookupsInverse.{Exact, TablesFit};
ghost use Rattle.refusals.specs.declared.Refusal.TheVariants.{Sizes};
ghost use Rattle.tables.specs.Filled.{Filled};
ghost use Rattle.tables.specs.Paper.{lookup_answer, Unfit};

use bits::{ones, ones_below, select, test};
use limits::{BLOCK_WORDS, HEAP_WORDS, TABLE_ENTRIES};
use refusals::Refusal;
use words::Place;

// Tables that agree: each offset entry is the number of live words below its block.
#[derive(Clone, Copy)]
pub struct Tables<'a> {
    pub live: &'a [u64],
    pub offsets: &'a [u32],
    pub ghost exact: { Exact live.now offsets.now },
}

impl Tables<'_> {
    // How many live words stand below place p, which is where its word goes if it is live.
    pub fn new_place(self, p: usize) -> u32
        requires { p / block_words < length self.live.now }
        ensures { result ≡ below (marked self.entry.live.now) p }
    {
        let b = p / BLOCK_WORDS;
        self.offsets[b] + ones_below(self.live[b], (p % BLOCK_WORDS) as u32)
    }
}

// The two tables stay apart, since they are lent so. Copies the scratch bitmap into the live table, with the live words below each
// block, and answers how many there are.
pub fn fill(words: &[u64; TABLE_ENTRIES], live: &mut [u64], offsets: &mut [u32]) -> usize
    requires { (length live.old ≤ table_entries) × (length offsets.old ≡ length live.old) }
    ensures { Filled words.now (length live.old) live.new offsets.new result }
{
    let mut sum: usize = 0;
    for b in 0..live.len() {
        live[b] = words[b];
        offsets[b] = sum as u32;
        sum += ones(words[b]) as usize;
    }
    sum
}

// The entries that both tables have; refused where the two differ, or there are more than a heap can need.
fn entries(live: &[u64], offsets: &[u32]) -> Result<usize, Refusal>
    ensures { MatchResult result
        (λ n. (n ≡ length live.now) × TablesFit live.now offsets.now)
        (λ e. (e ≡ Sizes) × Unfit live.now offsets.now) }
{
    if (live.len() != offsets.len()) || (TABLE_ENTRIES < live.len()) {
        return Err(Refusal::Sizes);
    }
    Ok(live.len())
}

// Where the word at an old place goes, from any tables: nowhere if it is dead.
pub fn old_to_new(live: &[u64], offsets: &[u32], place: Place) -> Result<Option<Place>, Refusal>
    ensures { lookup_answer result ≡ old_to_new live.now offsets.now place.0 }
{
    let p = place.number() as usize;
    let b = p / BLOCK_WORDS;
    if entries(live, offsets)? <= b {
        return Ok(None);
    }
    let entry = offsets[b];
    if HEAP_WORDS < entry as usize {
        return Err(Refusal::Sizes);
    }
    if !test(live, p) {
        return Ok(None);
    }
    Ok(Some(Place::at(entry + ones_below(live[b], (p % BLOCK_WORDS) as u32))))
}

// Where the word at a new place comes from, by the live table alone: whole words are skipped, then one is searched.
pub fn new_to_old(live: &[u64], offsets: &[u32], place: Place) -> Result<Option<Place>, Refusal>
    ensures { lookup_answer result ≡ new_to_old live.now offsets.now place.0 }
{
    entries(live, offsets)?;
    let mut left = place.number();
    for (b, &word) in live.iter().enumerate() {
        let here = ones(word);
        if left < here {
            return Ok(Some(Place::at((BLOCK_WORDS * b) as u32 + select(word, left))));
        }
        left -= here;
    }
    Ok(None)
}
