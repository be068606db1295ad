// The whole collection: what is refused, then references fixed, live words moved by blocks, and the rest cleared.
#![tactic(auto)]

ghost use Rattle.std.specs.Prelude.{◌≡◌, true, map, length};
ghost use Rattle.meaning.specs.Places.{below, marked};
ghost use Rattle.meaning.specs.Slide.{fix_word};
ghost use Rattle.meaning.specs.Collect.{tables_fit, collect as collect_of};
ghost use Rattle.compactor.specs.Collects.{Collects};
ghost use Rattle.compactor.specs.Phases.{Settleable, Settled, PreparedAs, Slidable, Slid, Finishable, Finished};

use limits::{BLOCK_WORDS, ORDER_ENTRIES, TABLE_ENTRIES, blocks_of};
use objects::Given;
use refusals::Refusal;
use tables::Tables;
use walk::Survey;

// What goes from preparing on to sliding: the references of the heap, and how many live words there are. That the heap is sound and
// the order keeps the dependences is asked where it is used (`Slidable`).
#[derive(Clone, Copy)]
pub struct Ready<'a> {
    pub refs: &'a [u64; TABLE_ENTRIES],
    pub total: usize,
}

// What the collection answers: the new top, the number of marked objects and the target blocks.
#[derive(Clone, Copy, Debug, PartialEq, Eq)]
pub struct Totals {
    pub top: u32,
    pub objects: u32,
    pub blocks: u32,
}

// Refusal 1, of what only the collection takes: whether the order and the tables fit.
fn tables_fit(heap: &[u32], order: &[u32], live: &[u64], offsets: &[u32]) -> bool
    ensures { result ≡ tables_fit heap.now order.now live.now offsets.now }
{
    let blocks = blocks_of(heap.len());
    order.len() <= ORDER_ENTRIES && live.len() == blocks && offsets.len() == blocks
}

// The tables filled from the bitmap of live words, and the order judged; the answer is the number of live words.
fn settle(
    order: &[u32],
    words: &[u64; TABLE_ENTRIES],
    live: &mut [u64],
    offsets: &mut [u32],
) -> Result<usize, Refusal>
    requires { Settleable words.now order.now live.old offsets.old }
    ensures { Settled words.now (length live.old) order.now live.new offsets.new result }
{
    let total = tables::fill(words, live, offsets);
    match orders::judge(order, offsets, total) {
        Some(position) => Err(Refusal::OrderBreaks(position as u32)),
        None => Ok(total),
    }
}

// Checks 2 to 5; past them the tables are filled and the order is judged; the answer is the number of live words. The survey of
// a sound heap is handed on, its fields being those that hold references.
pub fn prepare(
    given: Given,
    order: &[u32],
    live: &mut [u64],
    offsets: &mut [u32],
    survey: &mut Survey,
) -> Result<usize, Refusal>
    requires { tables_fit given.heap.now order.now live.old offsets.old ≡ true }
    ensures { PreparedAs given.entry.heap.now given.entry.top given.entry.roots.now given.entry.marks.now order.now
        live.old offsets.old live.new offsets.new survey.new result }
{
    *survey = Survey::blank();
    given.examine(survey)?;
    settle(order, &survey.words, live, offsets)
}

// Its buffers stay apart, as those of `collect`. References fixed first, then the live words moved by blocks in the order given,
// then the tail zeroed.
pub fn slide(
    heap: &mut [u32],
    top: usize,
    roots: &mut [u32],
    order: &[u32],
    tables: Tables,
    ready: Ready,
)
    requires { Slidable heap.old top roots.old order.now tables.live.now ready.refs.now ready.total }
    ensures { Slid heap.old top order.now tables.entry.live.now ready.entry.refs.now ready.entry.total heap.new
        × (roots.new ≡ map (fix_word (below (marked tables.entry.live.now))) roots.old) }
{
    fixing::fix_roots(roots, tables);
    fixing::fix_fields(heap, ready.refs, tables);
    blocks::move_blocks(heap, tables.live, ready.total, order);
    fixing::zero_tail(heap, ready.total, top);
}

// The last phase: the heap slid, the marks cleared, and the numbers answered.
pub fn finish(
    heap: &mut [u32],
    top: usize,
    roots: &mut [u32],
    marks: &mut [u64],
    order: &[u32],
    tables: Tables,
    ready: Ready,
) -> Totals
    requires { Finishable heap.old top roots.old marks.old order.now tables.live.now ready.refs.now ready.total }
    ensures { Finished heap.old top roots.old marks.old order.now tables.entry.live.now ready.entry.refs.now ready.entry.total
        heap.new roots.new marks.new result }
{
    let objects = bits::count_below(marks, BLOCK_WORDS * marks.len());
    slide(heap, top, roots, order, tables, ready);
    bits::clear(marks);
    Totals {
        top: ready.total as u32,
        objects: objects as u32,
        blocks: orders::targets(ready.total) as u32,
    }
}

// The collection. Its buffers stay apart, since each phase borrows others of them, to read or to change. Refusals 1 to 5 leave every
// buffer as found; refusal 6 leaves all but the tables, which are filled.
pub fn collect(
    heap: &mut [u32],
    top: u32,
    roots: &mut [u32],
    marks: &mut [u64],
    order: &[u32],
    live: &mut [u64],
    offsets: &mut [u32],
) -> Result<Totals, Refusal>
    ensures { Collects (collect_of heap.old top roots.old marks.old order.now live.old offsets.old)
        result heap.new roots.new marks.new live.new offsets.new }
{
    let end = top as usize;
    let given = Given::of(heap, end, roots, marks)?;
    if !tables_fit(heap, order, live, offsets) {
        return Err(Refusal::Sizes);
    }
    let mut survey = Survey::blank();
    let total = prepare(given, order, live, offsets, &mut survey)?;
    let tables = Tables { live, offsets };
    let ready = Ready {
        refs: &survey.fields,
        total,
    };
    Ok(finish(heap, end, roots, marks, order, tables, ready))
}
