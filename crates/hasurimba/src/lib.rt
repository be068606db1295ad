// The C interface. Every function answers 0 where accepted, else the refusal's number + 256 * the place reported; values go
// to the four words `out`, which stay as found on a refusal. None has a `requires`: C cannot be asked for one.
// Each lends every buffer by itself, since that is what C calls.
#![tactic(auto)]

ghost use Rattle.meaning.specs.Collect.{check, collect};
ghost use Rattle.meaning.specs.Lookups.{old_to_new, new_to_old};
ghost use Rattle.telling.specs.Out.{Says, SaysCollected, count_words, found_words};

pub mod calls;

use telling::say;
use words::Place;

#[unsafe(no_mangle)]
pub extern "C" fn hasurimba_check(
    heap: &[u32],
    top: u32,
    roots: &[u32],
    marks: &[u64],
    out: &mut [u64; 4],
) -> u64
    ensures { Says count_words (check heap.now top roots.now marks.now) out.old result out.new }
{
    say(objects::check(heap, top, roots, marks), out)
}

#[unsafe(no_mangle)]
pub extern "C" fn hasurimba_collect(
    heap: &mut [u32],
    top: u32,
    roots: &mut [u32],
    marks: &mut [u64],
    order: &[u32],
    live: &mut [u64],
    offsets: &mut [u32],
    out: &mut [u64; 4],
) -> u64
    ensures { SaysCollected (collect heap.old top roots.old marks.old order.now live.old offsets.old)
        out.old result heap.new roots.new marks.new live.new offsets.new out.new }
{
    say(
        compactor::collect(heap, top, roots, marks, order, live, offsets),
        out,
    )
}

#[unsafe(no_mangle)]
pub extern "C" fn hasurimba_old_to_new(
    live: &[u64],
    offsets: &[u32],
    place: u32,
    out: &mut [u64; 4],
) -> u64
    ensures { Says found_words (old_to_new live.now offsets.now place) out.old result out.new }
{
    say(tables::old_to_new(live, offsets, Place::at(place)), out)
}

#[unsafe(no_mangle)]
pub extern "C" fn hasurimba_new_to_old(
    live: &[u64],
    offsets: &[u32],
    place: u32,
    out: &mut [u64; 4],
) -> u64
    ensures { Says found_words (new_to_old live.now offsets.now place) out.old result out.new }
{
    say(tables::new_to_old(live, offsets, Place::at(place)), out)
}
