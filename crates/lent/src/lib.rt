// The thin layer: the small record lent and changed in place, over the calls that take it by value and give it back.
#![tactic(auto)]

ghost use Rattle.meaning.specs.Store.{answered};
ghost use Rattle.store.specs.Contract.{mem_of, call_of, brought_of};
ghost use Rattle.lent.specs.Lent.{Leaves, LeavesCollected};

use refusals::Refusal;
use store::{Call, Said, Store};

// Every call that borrows heap and slots alone: what is said, and the record, heap and slots after.
pub fn answer(
    store: &mut Store,
    heap: &mut [u32],
    roots: &mut [u32],
    call: Call,
) -> Result<Said, Refusal>
    ensures { Leaves (mem_of heap.old roots.old store.old)
        (answered (mem_of heap.old roots.old store.old) (call_of call))
        result store.new heap.new roots.new }
{
    let answer = calling::answer(*store, heap, roots, call)?;
    *store = answer.store;
    Ok(answer.said)
}

// The collect call, which borrows marks, order and tables besides, apart as for the bare collection.
pub fn collect(
    store: &mut Store,
    heap: &mut [u32],
    roots: &mut [u32],
    marks: &mut [u64],
    order: &[u32],
    live: &mut [u64],
    offsets: &mut [u32],
) -> Result<Said, Refusal>
    ensures { LeavesCollected (mem_of heap.old roots.old store.old)
        (brought_of marks.old order.now live.old offsets.old)
        result store.new heap.new roots.new marks.new live.new offsets.new }
{
    let collected = calling::collect(*store, heap, roots, marks, order, live, offsets)?;
    *store = collected.store;
    Ok(collected.said)
}
