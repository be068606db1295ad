// A store call on the record that C keeps: eight words, word 0 the top and word 1 the calls answered.
#![tactic(auto)]

ghost use Rattle.std.specs.Prelude.{◌≡◌};
ghost use Rattle.meaning.specs.Sequences.{call};
ghost use Rattle.store.specs.Contract.{call_of, brought_of, store_of};
ghost use Rattle.keeping.specs.Kept.{held_in, with_store, Gets, TellsCall, SaysCall, GetsCollected};

use refusals::Refusal;
use store::{Call, Said, Store};

// The store in the record. A top that does not fit 32 bits fits no heap.
fn held(kept: &[u64; 8]) -> Result<Store, Refusal>
    ensures { result ≡ held_in kept.now }
{
    let Ok(top) = u32::try_from(kept[0]) else {
        return Err(Refusal::Sizes);
    };
    Ok(Store {
        top,
        calls: kept[1],
    })
}

// The record with the store put in; words 2 to 7 stay as found.
fn keep(kept: &mut [u64; 8], store: Store)
    ensures { kept.new ≡ with_store kept.old (store_of store) }
{
    kept[0] = u64::from(store.top);
    kept[1] = store.calls;
}

// The call's own answer.
#[tactic(auto, using(crate::proofs::KeptStore::call_past, crate::proofs::KeptStore::put_back))]
fn answer(
    kept: &mut [u64; 8],
    heap: &mut [u32],
    roots: &mut [u32],
    wanted: Call,
) -> Result<Said, Refusal>
    ensures { Gets kept.old heap.old roots.old (call (call_of wanted))
        result kept.new heap.new roots.new }
{
    let answer = calling::answer(held(kept)?, heap, roots, wanted)?;
    keep(kept, answer.store);
    Ok(answer.said)
}

// A call whose number says all.
pub fn tell(kept: &mut [u64; 8], heap: &mut [u32], roots: &mut [u32], wanted: Call) -> u64
    ensures { TellsCall kept.old heap.old roots.old (call (call_of wanted))
        result kept.new heap.new roots.new }
{
    telling::code(answer(kept, heap, roots, wanted))
}

// A call with values. Inlined, so that the call is not copied on the way.
#[inline(always)]
pub fn show(
    kept: &mut [u64; 8],
    heap: &mut [u32],
    roots: &mut [u32],
    wanted: Call,
    out: &mut [u64; 4],
) -> u64
    ensures { SaysCall kept.old heap.old roots.old (call (call_of wanted))
        out.old result kept.new heap.new roots.new out.new }
{
    telling::say(answer(kept, heap, roots, wanted), out)
}

// The collect call's own answer; the buffers stay apart, as C lends them.
#[tactic(auto, using(crate::proofs::KeptStore::collect_past, crate::proofs::KeptStore::put_back), unfolding(meaning::specs::Store::collects))]
pub fn collect(
    kept: &mut [u64; 8],
    heap: &mut [u32],
    roots: &mut [u32],
    marks: &mut [u64],
    order: &[u32],
    live: &mut [u64],
    offsets: &mut [u32],
) -> Result<Said, Refusal>
    ensures { GetsCollected kept.old heap.old roots.old
        (brought_of marks.old order.now live.old offsets.old)
        result kept.new heap.new roots.new marks.new live.new offsets.new }
{
    let answer = calling::collect(held(kept)?, heap, roots, marks, order, live, offsets)?;
    keep(kept, answer.store);
    Ok(answer.said)
}
