// The calls that make an object: a record of nils or raw words of zeros at the top, its reference into a slot.
#![tactic(auto)]

ghost use Rattle.std.specs.Prelude.{◌≡◌};
ghost use Rattle.meaning.specs.Calls.{new_record, new_raw};
ghost use Rattle.meaning.specs.Store.{answered};
ghost use Rattle.headers.specs.Paper.{kind_number};
ghost use Rattle.births.specs.Births.{born};
ghost use Rattle.store.specs.Contract.{mem_of, Leaves};

use headers::{Header, Kind};
use limits::PAYLOAD_WORDS;
use refusals::Refusal;
use store::{Answer, Said, Store, admit, told};
use words::{Place, Word};

// A new object of this kind, k payload words that are all alike; record, heap and slots apart, as for every call.
#[tactic(auto, unfolding(crate::specs::Births::born))]
fn birth(
    store: Store,
    heap: &mut [u32],
    roots: &mut [u32],
    slot: u32,
    k: u32,
    kind: Kind,
    word: u32,
) -> Result<Answer, Refusal>
    ensures { Leaves (mem_of heap.old roots.old store) (born (mem_of heap.old roots.old store) slot k (kind_number kind) word)
        result heap.new roots.new }
{
    admit(store, heap, roots)?;
    let at = store::slot(roots, slot)?;
    if PAYLOAD_WORDS < k {
        return Err(Refusal::TooLong);
    }
    let top = store.top as usize;
    if heap.len() - top <= k as usize {
        return Err(Refusal::NoRoom);
    }
    let end = top + 1 + k as usize;
    heap[top] = Header { kind, count: k }.word();
    heap[top + 1..end].fill(word);
    roots[at] = Word::reference(Place::at(store.top)).bits();
    let top = store.top + 1 + k;
    Ok(told(Store { top, ..store }, Said::Done))
}

// A new record of k nils.
#[tactic(auto, using(crate::proofs::BirthsAre::record_born))]
pub fn new_record(
    store: Store,
    heap: &mut [u32],
    roots: &mut [u32],
    slot: u32,
    k: u32,
) -> Result<Answer, Refusal>
    ensures { Leaves (mem_of heap.old roots.old store) (answered (mem_of heap.old roots.old store) (new_record slot k))
        result heap.new roots.new }
{
    birth(store, heap, roots, slot, k, Kind::Record, Word::NIL.bits())
}

// A new raw object of k zeros.
#[tactic(auto, using(crate::proofs::BirthsAre::raw_born))]
pub fn new_raw(
    store: Store,
    heap: &mut [u32],
    roots: &mut [u32],
    slot: u32,
    k: u32,
) -> Result<Answer, Refusal>
    ensures { Leaves (mem_of heap.old roots.old store) (answered (mem_of heap.old roots.old store) (new_raw slot k))
        result heap.new roots.new }
{
    birth(store, heap, roots, slot, k, Kind::Raw, 0)
}
