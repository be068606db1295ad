// The calls on slots alone: an integer, nil or another slot's word put into a slot, and two slots compared.
#![tactic(auto, unfolding(meaning::specs::Store::answered, meaning::specs::Calls::admit))]

ghost use Rattle.meaning.specs.Calls.{put_int, put_nil, copy as copy_call, same as same_call};
ghost use Rattle.meaning.specs.Store.{answered};
ghost use Rattle.store.specs.Contract.{mem_of, Leaves};

use refusals::Refusal;
use store::{Answer, Said, Store, admit, told};
use words::Word;

// An integer into a slot, where it has a word.
#[tactic(auto, unfolding(meaning::specs::Store::answered, meaning::specs::Calls::admit, meaning::specs::Values::make))]
pub fn put_int(
    store: Store,
    heap: &[u32],
    roots: &mut [u32],
    slot: u32,
    value: i32,
) -> Result<Answer, Refusal>
    ensures { Leaves (mem_of heap.now roots.old store) (answered (mem_of heap.now roots.old store) (put_int slot value))
        result heap.now roots.new }
{
    admit(store, heap, roots)?;
    let at = store::slot(roots, slot)?;
    roots[at] = Word::of_int(value)?.bits();
    Ok(told(store, Said::Done))
}

// Nil into a slot.
pub fn put_nil(store: Store, heap: &[u32], roots: &mut [u32], slot: u32) -> Result<Answer, Refusal>
    ensures { Leaves (mem_of heap.now roots.old store) (answered (mem_of heap.now roots.old store) (put_nil slot))
        result heap.now roots.new }
{
    admit(store, heap, roots)?;
    let at = store::slot(roots, slot)?;
    roots[at] = Word::NIL.bits();
    Ok(told(store, Said::Done))
}

// A slot's word into another slot.
pub fn copy(
    store: Store,
    heap: &[u32],
    roots: &mut [u32],
    source: u32,
    target: u32,
) -> Result<Answer, Refusal>
    ensures { Leaves (mem_of heap.now roots.old store) (answered (mem_of heap.now roots.old store) (copy_call source target))
        result heap.now roots.new }
{
    admit(store, heap, roots)?;
    let from = store::slot(roots, source)?;
    let to = store::slot(roots, target)?;
    roots[to] = roots[from];
    Ok(told(store, Said::Done))
}

// Whether two slots hold the same word.
pub fn same(
    store: Store,
    heap: &[u32],
    roots: &[u32],
    first: u32,
    second: u32,
) -> Result<Answer, Refusal>
    ensures { Leaves (mem_of heap.now roots.now store) (answered (mem_of heap.now roots.now store) (same_call first second))
        result heap.now roots.now }
{
    admit(store, heap, roots)?;
    let one = store::slot(roots, first)?;
    let other = store::slot(roots, second)?;
    Ok(told(store, Said::Same(roots[one] == roots[other])))
}
