// What the store calls share: the small record, the calls and what they say, refusals 1 and 7, and how a call is answered.
#![tactic(auto)]

ghost use Rattle.std.specs.Prelude.{◌≡◌, Some};
ghost use Rattle.meaning.specs.Calls.{fits as fits_of};
ghost use Rattle.meaning.specs.Store.{view_of};
ghost use Rattle.refusals.specs.Paper.{refuse_unless};
ghost use Rattle.store.specs.Printed.{text_of};
ghost use Rattle.store.specs.Contract.{mem_of, slot_of, told_of};

use limits::{HEAP_WORDS, ROOT_SLOTS};
use refusals::Refusal;
use std::fmt;

// The small record: the words in use, and the calls answered without refusal.
#[derive(Clone, Copy, Debug, PartialEq, Eq)]
pub struct Store {
    pub top: u32,
    pub calls: u64,
}

// What an accepted call says. No case holds a place of an object. `Collected` has the new top, the objects and the target blocks by
// themselves: a type for the three would be a crate of its own below this one and the collection, and say no more.
#[derive(Clone, Copy, Debug, PartialEq, Eq)]
pub enum Said {
    Done,
    Integer(i32),
    Nil,
    Record(u32),
    Raw(u32),
    Word(u32),
    Same(bool),
    Collected(u32, u32, u32),
}

impl fmt::Display for Said {
    ghost output = { λ a. Some (text_of a) };

    fn fmt<W: fmt::Write>(&self, f: &mut fmt::Formatter<W>) -> fmt::Result {
        match *self {
            Said::Done => write!(f, "done"),
            Said::Integer(value) => write!(f, "integer {value}"),
            Said::Nil => write!(f, "nil"),
            Said::Record(count) => write!(f, "record {count}"),
            Said::Raw(count) => write!(f, "raw {count}"),
            Said::Word(word) => write!(f, "word {word}"),
            Said::Same(same) => write!(f, "same {same}"),
            Said::Collected(top, objects, blocks) => {
                write!(f, "collected {top} {objects} {blocks}")
            }
        }
    }
}

// The record that an accepted call gives back, and what is said of it. After a refusal the caller's record stands.
#[derive(Clone, Copy, Debug, PartialEq, Eq)]
pub struct Answer<T = Said> {
    pub store: Store,
    pub said: T,
}

// A call with its numbers, in the order of the functions' parameters. A collection is no such call: it borrows more.
#[derive(Clone, Copy, Debug, PartialEq, Eq)]
pub enum Call {
    PutInt(u32, i32),
    PutNil(u32),
    Copy(u32, u32),
    NewRecord(u32, u32),
    NewRaw(u32, u32),
    ReadField(u32, u32, u32),
    WriteField(u32, u32, u32),
    ReadRaw(u32, u32),
    WriteRaw(u32, u32, u32),
    Ask(u32),
    Same(u32, u32),
}

// Whether heap, top and slots fit. Record, heap and slots stay three parameters, here and in every call: the record comes and goes by
// value, and a call borrows heap and slots each to read or to change.
pub fn fits(store: Store, heap: &[u32], roots: &[u32]) -> bool
    ensures { result ≡ fits_of (view_of (mem_of heap.now roots.now store)) }
{
    heap.len() <= HEAP_WORDS && store.top as usize <= heap.len() && roots.len() <= ROOT_SLOTS
}

// Refusal 1, where they do not.
pub fn admit(store: Store, heap: &[u32], roots: &[u32]) -> Result<(), Refusal>
    ensures { result ≡ refuse_unless (fits_of (view_of (mem_of heap.now roots.now store))) Refusal.Sizes }
{
    if !fits(store, heap, roots) {
        return Err(Refusal::Sizes);
    }
    Ok(())
}

// Where the slot of this number is; refusal 7 past the last.
pub fn slot(roots: &[u32], number: u32) -> Result<usize, Refusal>
    ensures { result ≡ slot_of roots.now number }
{
    if roots.len() <= number as usize {
        return Err(Refusal::NoSlot(number));
    }
    Ok(number as usize)
}

// What an accepted call says; the count wraps on purpose. It may be anything, also a number and a place, for which `Said` has no case.
pub fn told<T>(store: Store, said: T) -> Answer<T>
    ensures { result ≡ told_of store said }
{
    Answer {
        store: Store {
            calls: store.calls.wrapping_add(1),
            ..store
        },
        said,
    }
}
