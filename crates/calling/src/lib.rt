// All store calls: one function for every call that borrows heap and slots alone, and the collect call.
#![tactic(auto)]

ghost use Rattle.meaning.specs.Store.{answered};
ghost use Rattle.store.specs.Contract.{mem_of, call_of, brought_of, Leaves, LeavesCollected};

use refusals::Refusal;
use store::{Answer, Call, Said, Store, told};

// The call's own answer; o is an object's slot and f its field. An enum and no closure says which call it is: what holds of
// every sequence of calls (`demand_three_told`) is said of a list of them.
pub fn answer(
    store: Store,
    heap: &mut [u32],
    roots: &mut [u32],
    call: Call,
) -> Result<Answer, Refusal>
    ensures { Leaves (mem_of heap.old roots.old store) (answered (mem_of heap.old roots.old store) (call_of call))
        result heap.new roots.new }
{
    match call {
        Call::PutInt(slot, value) => slots::put_int(store, heap, roots, slot, value),
        Call::PutNil(slot) => slots::put_nil(store, heap, roots, slot),
        Call::Copy(source, target) => slots::copy(store, heap, roots, source, target),
        Call::NewRecord(slot, k) => births::new_record(store, heap, roots, slot, k),
        Call::NewRaw(slot, k) => births::new_raw(store, heap, roots, slot, k),
        Call::ReadField(o, f, target) => fields::read_field(store, heap, roots, o, f, target),
        Call::WriteField(o, f, source) => fields::write_field(store, heap, roots, o, f, source),
        Call::ReadRaw(o, f) => fields::read_raw(store, heap, roots, o, f),
        Call::WriteRaw(o, f, word) => fields::write_raw(store, heap, roots, o, f, word),
        Call::Ask(slot) => fields::ask(store, heap, roots, slot),
        Call::Same(first, second) => slots::same(store, heap, roots, first, second),
    }
}

// A collection; its buffers stay apart, as for the bare one. A refusal leaves the heap, slots and marks as found; refusal 6 alone
// has filled the tables.
#[tactic(auto, using(crate::proofs::CollectLeaves::collect_leaves), unfolding(meaning::specs::Store::collects))]
pub fn collect(
    store: Store,
    heap: &mut [u32],
    roots: &mut [u32],
    marks: &mut [u64],
    order: &[u32],
    live: &mut [u64],
    offsets: &mut [u32],
) -> Result<Answer, Refusal>
    ensures { LeavesCollected (mem_of heap.old roots.old store)
        (brought_of marks.old order.now live.old offsets.old)
        result heap.new roots.new marks.new live.new offsets.new }
{
    let totals = compactor::collect(heap, store.top, roots, marks, order, live, offsets)?;
    let top = totals.top;
    let said = Said::Collected(top, totals.objects, totals.blocks);
    Ok(told(Store { top, ..store }, said))
}
