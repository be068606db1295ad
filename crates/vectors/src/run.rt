// One case of each kind.
use crate::calls;
use crate::case::{Case, HEAP_ROOM, ROOT_ROOM, TABLE_ROOM};
use crate::digest::Digest;
use refusals::Refusal;
use std::io::Write;
use std::{fmt, io};
use words::Place;

// The answer to one case, as a line.
pub fn run<W: Write>(out: &mut W, bytes: &[u8]) -> io::Result<()> {
    match say(out, Case { rest: bytes }) {
        Some(said) => said,
        None => skipped(out),
    }
}

// A case whose kind or lengths are wrong.
pub fn skipped<W: Write>(out: &mut W) -> io::Result<()> {
    out.write_all(b"skipped\n")
}

// None where the case is skipped: nothing is written then. A kind is a number in the stored cases. Each has its lengths first, in
// the order of what follows.
fn say<W: Write>(out: &mut W, mut case: Case) -> Option<io::Result<()>> {
    match case.next::<u32>()? {
        0 => read(out, case),
        1 => check(out, case),
        2 => lookups(out, case),
        3 => collect(out, case),
        4 => calls::calls(out, case),
        5 => image(out, case),
        _ => None,
    }
}

// Kind 0: only reads heap and marks, so that a fault in reading shows by itself.
fn read<W: Write>(out: &mut W, mut case: Case) -> Option<io::Result<()>> {
    let heap_words = case.next()?;
    let blocks = case.next()?;
    let mut heap = [0u32; HEAP_ROOM];
    let mut marks = [0u64; TABLE_ROOM];
    let heap = case.fill(heap_words, &mut heap)?;
    let marks = case.fill(blocks, &mut marks)?;
    case.end()?;
    let left = Digest::START.words(heap).words(marks);
    Some(writeln!(out, "read {left}"))
}

// Kind 1: the check. The top, then heap, roots and marks.
fn check<W: Write>(out: &mut W, mut case: Case) -> Option<io::Result<()>> {
    let top = case.next()?;
    let heap_words = case.next()?;
    let slots = case.next()?;
    let blocks = case.next()?;
    let mut heap = [0u32; HEAP_ROOM];
    let mut roots = [0u32; ROOT_ROOM];
    let mut marks = [0u64; TABLE_ROOM];
    let heap = case.fill(heap_words, &mut heap)?;
    let roots = case.fill(slots, &mut roots)?;
    let marks = case.fill(blocks, &mut marks)?;
    case.end()?;
    Some(match objects::check(heap, top, roots, marks) {
        Ok(counts) => writeln!(out, "check {} {}", counts.live, counts.objects),
        Err(refusal) => writeln!(out, "check {refusal}"),
    })
}

// What a lookup finds.
#[derive(Clone, Copy)]
struct Found(Result<Option<Place>, Refusal>);

impl fmt::Display for Found {
    fn fmt<W: fmt::Write>(&self, f: &mut fmt::Formatter<W>) -> fmt::Result {
        match self.0 {
            Ok(Some(place)) => {
                let number = place.number();
                write!(f, "{number}")
            }
            Ok(None) => write!(f, "none"),
            Err(_) => write!(f, "refused"),
        }
    }
}

// Kind 2: both lookups of a place. The lengths of the live and the offset table, the place, then the tables.
fn lookups<W: Write>(out: &mut W, mut case: Case) -> Option<io::Result<()>> {
    let blocks = case.next()?;
    let entries = case.next()?;
    let place = Place::at(case.next()?);
    let mut live = [0u64; TABLE_ROOM];
    let mut offsets = [0u32; TABLE_ROOM];
    let live = case.fill(blocks, &mut live)?;
    let offsets = case.fill(entries, &mut offsets)?;
    case.end()?;
    let to_new = Found(tables::old_to_new(live, offsets, place));
    let to_old = Found(tables::new_to_old(live, offsets, place));
    Some(writeln!(out, "lookups {to_new} {to_old}"))
}

// Kind 3: the collection. The top, then heap, roots, marks, order, live and offset table. The line has a digest of all that is left.
fn collect<W: Write>(out: &mut W, mut case: Case) -> Option<io::Result<()>> {
    let top = case.next()?;
    let heap_words = case.next()?;
    let slots = case.next()?;
    let blocks = case.next()?;
    let steps = case.next()?;
    let lives = case.next()?;
    let entries = case.next()?;
    let mut heap = [0u32; HEAP_ROOM];
    let mut roots = [0u32; ROOT_ROOM];
    let mut marks = [0u64; TABLE_ROOM];
    let mut order = [0u32; TABLE_ROOM];
    let mut live = [0u64; TABLE_ROOM];
    let mut offsets = [0u32; TABLE_ROOM];
    let heap = case.fill(heap_words, &mut heap)?;
    let roots = case.fill(slots, &mut roots)?;
    let marks = case.fill(blocks, &mut marks)?;
    let order = case.fill(steps, &mut order)?;
    let live = case.fill(lives, &mut live)?;
    let offsets = case.fill(entries, &mut offsets)?;
    case.end()?;
    let answer = compactor::collect(heap, top, roots, marks, order, live, offsets);
    let left = Digest::START.words(heap).words(roots).words(marks);
    let left = left.words(order).words(live).words(offsets);
    Some(match answer {
        Ok(totals) => writeln!(
            out,
            "collect {} {} {} {left}",
            totals.top, totals.objects, totals.blocks
        ),
        Err(refusal) => writeln!(out, "collect {refusal} {left}"),
    })
}

// Kind 5: an image, and all that the program compact prints for it. Its length in bytes; then these, filled up to a whole word.
fn image<W: Write>(out: &mut W, mut case: Case) -> Option<io::Result<()>> {
    let mut marks = [0u64; 128];
    let length = case.next::<u32>()? as usize;
    if case.rest.len() != 4 * length.div_ceil(4) {
        return None;
    }
    let image = case.rest.get(..length)?;
    Some(report::write_answer(image, &mut marks, out))
}
