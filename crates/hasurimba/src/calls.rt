// The store calls, for C. Each takes the record, heap and roots that C keeps, and then the numbers of the call. They are a function
// each, and lend each buffer by itself, since that is what C calls.
ghost use Rattle.meaning.specs.Sequences.{call};
ghost use Rattle.meaning.specs.Calls.{put_int, put_nil, copy, new_record, new_raw, read_field, write_field, read_raw, write_raw, ask, same};
ghost use Rattle.store.specs.Contract.{brought_of};
ghost use Rattle.keeping.specs.Kept.{TellsCall, SaysCall, SaysCollect};

use keeping::{collect, show, tell};
use store::Call;
use telling::say;

#[unsafe(no_mangle)]
pub extern "C" fn hasurimba_put_integer(
    kept: &mut [u64; 8],
    heap: &mut [u32],
    roots: &mut [u32],
    slot: u32,
    value: i32,
) -> u64
    ensures { TellsCall kept.old heap.old roots.old (call (put_int slot value))
        result kept.new heap.new roots.new }
{
    tell(kept, heap, roots, Call::PutInt(slot, value))
}

#[unsafe(no_mangle)]
pub extern "C" fn hasurimba_put_nil(
    kept: &mut [u64; 8],
    heap: &mut [u32],
    roots: &mut [u32],
    slot: u32,
) -> u64
    ensures { TellsCall kept.old heap.old roots.old (call (put_nil slot))
        result kept.new heap.new roots.new }
{
    tell(kept, heap, roots, Call::PutNil(slot))
}

#[unsafe(no_mangle)]
pub extern "C" fn hasurimba_copy(
    kept: &mut [u64; 8],
    heap: &mut [u32],
    roots: &mut [u32],
    source: u32,
    target: u32,
) -> u64
    ensures { TellsCall kept.old heap.old roots.old (call (copy source target))
        result kept.new heap.new roots.new }
{
    tell(kept, heap, roots, Call::Copy(source, target))
}

#[unsafe(no_mangle)]
pub extern "C" fn hasurimba_new_record(
    kept: &mut [u64; 8],
    heap: &mut [u32],
    roots: &mut [u32],
    slot: u32,
    k: u32,
) -> u64
    ensures { TellsCall kept.old heap.old roots.old (call (new_record slot k))
        result kept.new heap.new roots.new }
{
    tell(kept, heap, roots, Call::NewRecord(slot, k))
}

#[unsafe(no_mangle)]
pub extern "C" fn hasurimba_new_raw(
    kept: &mut [u64; 8],
    heap: &mut [u32],
    roots: &mut [u32],
    slot: u32,
    k: u32,
) -> u64
    ensures { TellsCall kept.old heap.old roots.old (call (new_raw slot k))
        result kept.new heap.new roots.new }
{
    tell(kept, heap, roots, Call::NewRaw(slot, k))
}

#[unsafe(no_mangle)]
pub extern "C" fn hasurimba_read_field(
    kept: &mut [u64; 8],
    heap: &mut [u32],
    roots: &mut [u32],
    object: u32,
    field: u32,
    target: u32,
) -> u64
    ensures { TellsCall kept.old heap.old roots.old (call (read_field object field target))
        result kept.new heap.new roots.new }
{
    tell(kept, heap, roots, Call::ReadField(object, field, target))
}

#[unsafe(no_mangle)]
pub extern "C" fn hasurimba_write_field(
    kept: &mut [u64; 8],
    heap: &mut [u32],
    roots: &mut [u32],
    object: u32,
    field: u32,
    source: u32,
) -> u64
    ensures { TellsCall kept.old heap.old roots.old (call (write_field object field source))
        result kept.new heap.new roots.new }
{
    tell(kept, heap, roots, Call::WriteField(object, field, source))
}

#[unsafe(no_mangle)]
pub extern "C" fn hasurimba_read_raw(
    kept: &mut [u64; 8],
    heap: &mut [u32],
    roots: &mut [u32],
    object: u32,
    index: u32,
    out: &mut [u64; 4],
) -> u64
    ensures { SaysCall kept.old heap.old roots.old (call (read_raw object index))
        out.old result kept.new heap.new roots.new out.new }
{
    show(kept, heap, roots, Call::ReadRaw(object, index), out)
}

#[unsafe(no_mangle)]
pub extern "C" fn hasurimba_write_raw(
    kept: &mut [u64; 8],
    heap: &mut [u32],
    roots: &mut [u32],
    object: u32,
    index: u32,
    word: u32,
) -> u64
    ensures { TellsCall kept.old heap.old roots.old (call (write_raw object index word))
        result kept.new heap.new roots.new }
{
    tell(kept, heap, roots, Call::WriteRaw(object, index, word))
}

#[unsafe(no_mangle)]
pub extern "C" fn hasurimba_ask(
    kept: &mut [u64; 8],
    heap: &mut [u32],
    roots: &mut [u32],
    slot: u32,
    out: &mut [u64; 4],
) -> u64
    ensures { SaysCall kept.old heap.old roots.old (call (ask slot))
        out.old result kept.new heap.new roots.new out.new }
{
    show(kept, heap, roots, Call::Ask(slot), out)
}

#[unsafe(no_mangle)]
pub extern "C" fn hasurimba_same(
    kept: &mut [u64; 8],
    heap: &mut [u32],
    roots: &mut [u32],
    first: u32,
    second: u32,
    out: &mut [u64; 4],
) -> u64
    ensures { SaysCall kept.old heap.old roots.old (call (same first second))
        out.old result kept.new heap.new roots.new out.new }
{
    show(kept, heap, roots, Call::Same(first, second), out)
}

#[unsafe(no_mangle)]
pub extern "C" fn hasurimba_store_collect(
    kept: &mut [u64; 8],
    heap: &mut [u32],
    roots: &mut [u32],
    marks: &mut [u64],
    order: &[u32],
    live: &mut [u64],
    offsets: &mut [u32],
    out: &mut [u64; 4],
) -> u64
    ensures { SaysCollect kept.old heap.old roots.old
        (brought_of marks.old order.now live.old offsets.old) out.old
        result kept.new heap.new roots.new marks.new live.new offsets.new out.new }
{
    say(collect(kept, heap, roots, marks, order, live, offsets), out)
}
