// The check of heap, roots and marks: refusals 1 to 5, or the live words and the number of marked objects.
#![tactic(auto)]

ghost use Rattle.std.specs.Prelude.{◌≡◌, true, false, ◌≤◌, length, MatchResult};
ghost use Rattle.meaning.specs.Limits.{table_entries};
ghost use Rattle.meaning.specs.Collect.{sizes_fit, check as check_of};
ghost use Rattle.walk.specs.Survey.{Blank};
ghost use Rattle.refusals.specs.declared.Refusal.TheVariants.{Sizes};
ghost use Rattle.objects.specs.Examined.{Examined, counts_of, checked_counts, bits_counted};

use limits::{BLOCK_WORDS, HEAP_WORDS, ROOT_SLOTS, TABLE_ENTRIES, blocks_of};
use refusals::Refusal;
use walk::Survey;

// What the check answers: the live words and the number of marked objects.
#[derive(Clone, Copy, Debug, PartialEq, Eq)]
pub struct Counts {
    pub live: u32,
    pub objects: u32,
}

// Refusal 1, of what the check takes: whether the sizes fit.
pub fn sizes_fit(heap: &[u32], top: usize, roots: &[u32], marks: &[u64]) -> bool
    ensures { result ≡ sizes_fit heap.now top roots.now marks.now }
{
    heap.len() <= HEAP_WORDS
        && top <= heap.len()
        && roots.len() <= ROOT_SLOTS
        && marks.len() == blocks_of(heap.len())
}

// What the check is given: a heap and its top, its roots and its marks, of sizes that fit.
#[derive(Clone, Copy)]
pub struct Given<'a> {
    pub heap: &'a [u32],
    pub top: usize,
    pub roots: &'a [u32],
    pub marks: &'a [u64],
    pub ghost fit: { sizes_fit heap.now top roots.now marks.now ≡ true },
}

impl Given<'_> {
    // Refusal 1, where the sizes do not fit.
    pub fn of<'a>(
        heap: &'a [u32],
        top: usize,
        roots: &'a [u32],
        marks: &'a [u64],
    ) -> Result<Given<'a>, Refusal>
        ensures { MatchResult result
            (λ g. (g.heap.now ≡ heap.now) × (g.top ≡ top) × (g.roots.now ≡ roots.now) × (g.marks.now ≡ marks.now))
            (λ e. (e ≡ Sizes) × (sizes_fit heap.now top roots.now marks.now ≡ false)) }
    {
        if !sizes_fit(heap, top, roots, marks) {
            return Err(Refusal::Sizes);
        }
        Ok(Given {
            heap,
            top,
            roots,
            marks,
        })
    }

    // Checks 2 to 5. The survey of a sound heap is handed on, its fields being those that hold references. It is lent, since
    // to answer it would copy it.
    pub fn examine(self, survey: &mut Survey) -> Result<(), Refusal>
        requires { Blank self.heap.now self.top survey.old.headers survey.old.words survey.old.fields }
        ensures { Examined self.entry.heap.now self.entry.top self.entry.roots.now self.entry.marks.now survey.new result }
    {
        let Given {
            heap,
            top,
            roots,
            marks,
        } = self;
        let end = survey.walk(heap, top, marks);
        if end < top {
            return Err(Refusal::BadObject(end as u32));
        }
        if let Some(place) = search::first_stray(marks, &survey.headers) {
            return Err(Refusal::StrayMark(place as u32));
        }
        if let Some(slot) = search::first_bad_root(roots, marks) {
            return Err(Refusal::LostRoot(slot as u32));
        }
        search::keep_refs(heap, &mut survey.fields);
        if let Some(place) = search::first_bad_field(heap, marks, &survey.fields) {
            return Err(Refusal::LostField(place as u32));
        }
        Ok(())
    }
}

// The live words and the marked objects: all bits of two bitmaps.
fn count(words: &[u64; TABLE_ENTRIES], marks: &[u64]) -> Counts
    requires { length marks.now ≤ table_entries }
    ensures { counts_of result ≡ bits_counted words.now marks.now }
{
    Counts {
        live: bits::count_below(words, BLOCK_WORDS * TABLE_ENTRIES) as u32,
        objects: bits::count_below(marks, BLOCK_WORDS * marks.len()) as u32,
    }
}

// Tries refusals 1 to 5 in order and writes nothing.
pub fn check(heap: &[u32], top: u32, roots: &[u32], marks: &[u64]) -> Result<Counts, Refusal>
    ensures { checked_counts result ≡ check_of heap.now top roots.now marks.now }
{
    let given = Given::of(heap, top as usize, roots, marks)?;
    let mut survey = Survey::blank();
    given.examine(&mut survey)?;
    Ok(count(&survey.words, marks))
}
