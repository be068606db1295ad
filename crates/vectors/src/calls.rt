// Kind 4: a sequence of store calls, each on what the one before it left. The record, the lengths of heap and roots, the number
// of steps; then heap, roots and the steps. A step is a call's number and three words, or 11 with what a collection brings.
use crate::case::{Case, HEAP_ROOM, ROOT_ROOM, TABLE_ROOM};
use crate::digest::Digest;
use refusals::Refusal;
use std::io;
use std::io::Write;
use store::{Answer, Call, Said, Store};

// In the stored cases a call is a number.
const COLLECT: u32 = 11;

// The call that these words are: the stored cases have numbers.
fn call_of(number: u32, a: u32, b: u32, c: u32) -> Option<Call> {
    Some(match number {
        0 => Call::PutInt(a, b.cast_signed()),
        1 => Call::PutNil(a),
        2 => Call::Copy(a, b),
        3 => Call::NewRecord(a, b),
        4 => Call::NewRaw(a, b),
        5 => Call::ReadField(a, b, c),
        6 => Call::WriteField(a, b, c),
        7 => Call::ReadRaw(a, b),
        8 => Call::WriteRaw(a, b, c),
        9 => Call::Ask(a),
        10 => Call::Same(a, b),
        _ => return None,
    })
}

// What the steps so far have left: heap and roots, the record, the last answer, and a digest of all answers and what came with them.
#[derive(Drop)]
struct Left<'a> {
    heap: &'a mut [u32],
    roots: &'a mut [u32],
    store: Store,
    said: Option<Result<Said, Refusal>>,
    digest: Digest,
}

// All inlined, so that what is left from step to step need not go through memory.
impl Left<'_> {
    // After a refusal the record stands.
    #[inline(always)]
    fn note(&mut self, answer: Result<Answer, Refusal>) {
        if let Ok(answer) = answer {
            self.store = answer.store;
        }
        let said = answer.map(|answer| answer.said);
        let digest = self.digest.said(said);
        let digest = digest
            .word(u64::from(self.store.top))
            .word(self.store.calls);
        self.digest = digest.words(self.heap).words(self.roots);
        self.said = Some(said);
    }

    // The step that is a call.
    #[inline(always)]
    fn call(&mut self, call: Call) {
        let answer = calling::answer(self.store, self.heap, self.roots, call);
        self.note(answer);
    }

    // The step that is a collection: the lengths of marks, order, live and offset table; then these. The digest takes its tables too.
    #[inline(always)]
    fn collect(&mut self, case: &mut Case) -> Option<()> {
        let blocks = case.next()?;
        let steps = case.next()?;
        let lives = case.next()?;
        let entries = case.next()?;
        let mut marks = [0u64; TABLE_ROOM];
        let mut order = [0u32; TABLE_ROOM];
        let mut live = [0u64; TABLE_ROOM];
        let mut offsets = [0u32; TABLE_ROOM];
        let marks = case.fill(blocks, &mut marks)?;
        let order = case.fill(steps, &mut order)?;
        let live = case.fill(lives, &mut live)?;
        let offsets = case.fill(entries, &mut offsets)?;
        let answer = calling::collect(
            self.store, self.heap, self.roots, marks, order, live, offsets,
        );
        self.note(answer);
        self.digest = self.digest.words(marks).words(live).words(offsets);
        Some(())
    }

    // The next step of the case; None where there is none.
    #[inline(always)]
    fn step(&mut self, case: &mut Case) -> Option<()> {
        let number = case.next()?;
        if number == COLLECT {
            return self.collect(case);
        }
        let call = call_of(number, case.next()?, case.next()?, case.next()?)?;
        self.call(call);
        Some(())
    }
}

// Past the next step, untaken; None where there is none.
fn pass(case: &mut Case) -> Option<()> {
    let number = case.next::<u32>()?;
    if number < COLLECT {
        return case.pass::<u32>(3, 3);
    }
    if COLLECT < number {
        return None;
    }
    let blocks = case.next()?;
    let steps = case.next()?;
    let lives = case.next()?;
    let entries = case.next()?;
    case.pass::<u64>(blocks, TABLE_ROOM)?;
    case.pass::<u32>(steps, TABLE_ROOM)?;
    case.pass::<u64>(lives, TABLE_ROOM)?;
    case.pass::<u32>(entries, TABLE_ROOM)
}

// Some where what is left of the case is heap, roots and so many steps. Seen before any step is taken, since one costs as much as
// the heap is large.
fn whole(mut case: Case, heap_words: u32, slots: u32, steps: u32) -> Option<()> {
    case.pass::<u32>(heap_words, HEAP_ROOM)?;
    case.pass::<u32>(slots, ROOT_ROOM)?;
    for _ in 0..steps {
        pass(&mut case)?;
    }
    case.end()
}

pub fn calls<W: Write>(out: &mut W, mut case: Case) -> Option<io::Result<()>> {
    let store = Store {
        top: case.next()?,
        calls: case.next()?,
    };
    let heap_words = case.next()?;
    let slots = case.next()?;
    let steps = case.next::<u32>()?;
    whole(case, heap_words, slots, steps)?;
    let mut heap = [0u32; HEAP_ROOM];
    let mut roots = [0u32; ROOT_ROOM];
    let mut left = Left {
        heap: case.fill(heap_words, &mut heap)?,
        roots: case.fill(slots, &mut roots)?,
        store,
        said: None,
        digest: Digest::START,
    };
    for _ in 0..steps {
        left.step(&mut case)?;
    }
    let Store { top, calls } = left.store;
    let digest = left.digest;
    Some(match left.said {
        None => writeln!(out, "calls {top} {calls} {digest} none"),
        Some(Ok(said)) => writeln!(out, "calls {top} {calls} {digest} {said}"),
        Some(Err(refusal)) => writeln!(out, "calls {top} {calls} {digest} {refusal}"),
    })
}
