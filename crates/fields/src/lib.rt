// The calls about the object that a slot holds: asking what it is, and its fields and raw words read and written.
#![tactic(auto)]

ghost use Rattle.std.specs.Prelude.{◌≡◌, ◌≤◌, ◌<◌, length, IfOk};
ghost use Rattle.meaning.specs.Values.{value_of, ref};
ghost use Rattle.meaning.specs.Calls.{find as find_of, ask as ask_call, read_field, write_field, read_raw, write_raw};
ghost use Rattle.meaning.specs.Store.{shown_value, answered};
ghost use Rattle.refusals.specs.Paper.{answer_of};
ghost use Rattle.headers.specs.Paper.{kind_number};
ghost use Rattle.store.specs.Contract.{mem_of, Leaves, paper_said};
ghost use Rattle.fields.specs.Fields.{seen_of, no_object, says_of, found_of, field_of, Finds};

use headers::{Header, Kind};
use refusals::Refusal;
use store::{Answer, Said, Store, admit, slot, told};
use words::{Shown, Word};

// What a slot's word shows: an object by its place, kind and count of words.
#[derive(Clone, Copy, Debug, PartialEq, Eq)]
pub enum Seen {
    Number(i32),
    Empty,
    Object { place: u32, kind: Kind, count: u32 },
    Stray,
}

// What a reference to a place shows: a legal header below the top, of an object that ends there or before.
fn see_object(heap: &[u32], top: u32, place: u32) -> Seen
    requires { top ≤ length heap.now }
    ensures { seen_of result ≡ shown_value heap.now top (ref place) }
{
    if top <= place {
        return Seen::Stray;
    }
    let Some(Header { kind, count }) = Header::read(heap[place as usize]) else {
        return Seen::Stray;
    };
    if top - place <= count {
        return Seen::Stray;
    }
    Seen::Object { place, kind, count }
}

// What a slot's word shows.
fn see(heap: &[u32], top: u32, word: u32) -> Seen
    requires { top ≤ length heap.now }
    ensures { seen_of result ≡ shown_value heap.now top (value_of word) }
{
    match Word::from_bits(word).shown() {
        Shown::Int(value) => Seen::Number(value),
        Shown::Nil => Seen::Empty,
        Shown::Ref(place) => see_object(heap, top, place.number()),
    }
}

// The refusal where a slot holds no object: 13 for a reference to none, else 8.
fn no_object(seen: Seen, slot: u32) -> Refusal
    ensures { result ≡ no_object (seen_of seen) slot }
{
    match seen {
        Seen::Stray => Refusal::NoObject(slot),
        _ => Refusal::OtherKind(slot),
    }
}

// Refusals 13, 8 and 9: the object must be of this kind and have the field.
fn locate(kind: Kind, object: u32, field: u32, seen: Seen) -> Result<usize, Refusal>
    ensures { found_of result ≡ field_of field (find_of (kind_number kind) object field (seen_of seen)) }
{
    let Seen::Object {
        place,
        kind: found,
        count,
    } = seen
    else {
        return Err(no_object(seen, object));
    };
    if found != kind {
        return Err(Refusal::OtherKind(object));
    }
    if count <= field {
        return Err(Refusal::NoField(field));
    }
    Ok(place as usize + 1 + field as usize)
}

// Where the word is in the heap that a call is about. Refusals 1 and 7 first; `other` is the call's second slot, or the first again;
// record, heap and slots stay apart, as for every call.
#[tactic(auto, unfolding(meaning::specs::Store::shown, crate::specs::Fields::finding))]
fn find(
    store: Store,
    heap: &[u32],
    roots: &[u32],
    kind: Kind,
    object: u32,
    field: u32,
    other: u32,
) -> Result<usize, Refusal>
    ensures found { Finds (mem_of heap.now roots.now store) (kind_number kind) object field other result }
    ensures inside { IfOk result (λ at. (at < length heap.now) × (other < length roots.now)) }
{
    admit(store, heap, roots)?;
    let at = slot(roots, object)?;
    slot(roots, other)?;
    locate(kind, object, field, see(heap, store.top, roots[at]))
}

// What an ask says of what is shown; 13 of a reference to no object.
fn asked(seen: Seen, slot: u32) -> Result<Said, Refusal>
    ensures { answer_of paper_said result ≡ says_of slot (seen_of seen) }
{
    match seen {
        Seen::Number(value) => Ok(Said::Integer(value)),
        Seen::Empty => Ok(Said::Nil),
        Seen::Object {
            kind: Kind::Record,
            count,
            ..
        } => Ok(Said::Record(count)),
        Seen::Object {
            kind: Kind::Raw,
            count,
            ..
        } => Ok(Said::Raw(count)),
        Seen::Stray => Err(Refusal::NoObject(slot)),
    }
}

// What a slot holds.
#[tactic(auto, unfolding(meaning::specs::Store::answered, meaning::specs::Calls::admit, meaning::specs::Store::shown))]
pub fn ask(store: Store, heap: &[u32], roots: &[u32], slot: u32) -> Result<Answer, Refusal>
    ensures { Leaves (mem_of heap.now roots.now store) (answered (mem_of heap.now roots.now store) (ask_call slot))
        result heap.now roots.now }
{
    admit(store, heap, roots)?;
    let at = store::slot(roots, slot)?;
    let said = asked(see(heap, store.top, roots[at]), slot)?;
    Ok(told(store, said))
}

// A record's field into a slot.
#[tactic(auto, using(crate::proofs::Finding::reads_field))]
pub fn read_field(
    store: Store,
    heap: &[u32],
    roots: &mut [u32],
    object: u32,
    field: u32,
    target: u32,
) -> Result<Answer, Refusal>
    ensures { Leaves (mem_of heap.now roots.old store) (answered (mem_of heap.now roots.old store) (read_field object field target))
        result heap.now roots.new }
{
    let at = find(store, heap, roots, Kind::Record, object, field, target)?;
    roots[target as usize] = heap[at];
    Ok(told(store, Said::Done))
}

// A slot's word into a record's field.
#[tactic(auto, using(crate::proofs::Finding::writes_field))]
pub fn write_field(
    store: Store,
    heap: &mut [u32],
    roots: &[u32],
    object: u32,
    field: u32,
    source: u32,
) -> Result<Answer, Refusal>
    ensures { Leaves (mem_of heap.old roots.now store) (answered (mem_of heap.old roots.now store) (write_field object field source))
        result heap.new roots.now }
{
    let at = find(store, heap, roots, Kind::Record, object, field, source)?;
    heap[at] = roots[source as usize];
    Ok(told(store, Said::Done))
}

// A raw object's word, said.
#[tactic(auto, using(crate::proofs::Finding::reads_raw))]
pub fn read_raw(
    store: Store,
    heap: &[u32],
    roots: &[u32],
    object: u32,
    field: u32,
) -> Result<Answer, Refusal>
    ensures { Leaves (mem_of heap.now roots.now store) (answered (mem_of heap.now roots.now store) (read_raw object field))
        result heap.now roots.now }
{
    let at = find(store, heap, roots, Kind::Raw, object, field, object)?;
    Ok(told(store, Said::Word(heap[at])))
}

// A word into a raw object.
#[tactic(auto, using(crate::proofs::Finding::writes_raw))]
pub fn write_raw(
    store: Store,
    heap: &mut [u32],
    roots: &[u32],
    object: u32,
    field: u32,
    word: u32,
) -> Result<Answer, Refusal>
    ensures { Leaves (mem_of heap.old roots.now store) (answered (mem_of heap.old roots.now store) (write_raw object field word))
        result heap.new roots.now }
{
    let at = find(store, heap, roots, Kind::Raw, object, field, object)?;
    heap[at] = word;
    Ok(told(store, Said::Done))
}
