// The one pass over the objects: where it ends, and what it notes of each object on the way.
#![tactic(auto)]

ghost use Rattle.std.specs.Prelude.{◌≡◌, ◌*◌, ◌<◌, ◌≤◌};
ghost use Rattle.meaning.specs.Limits.{block_words, table_entries};
ghost use Rattle.meaning.specs.Places.{marked};
ghost use Rattle.headers.specs.Paper.{is_record};
ghost use Rattle.walk.specs.Survey.{Notes, Blank, Walked, blank_survey};

use headers::{Header, Kind};
use limits::TABLE_ENTRIES;

// A bit for each word of the largest heap: the headers, the words of marked objects, the payload of marked records (of which the
// check then keeps what holds references).
#[derive(Clone, Copy)]
pub struct Survey {
    pub headers: [u64; TABLE_ENTRIES],
    pub words: [u64; TABLE_ENTRIES],
    pub fields: [u64; TABLE_ENTRIES],
}

impl Survey {
    pub fn blank() -> Survey
        ensures { result ≡ blank_survey }
    {
        Survey {
            headers: [0; TABLE_ENTRIES],
            words: [0; TABLE_ENTRIES],
            fields: [0; TABLE_ENTRIES],
        }
    }

    // The object of places p .. next - 1 noted: its header and, where it is kept, its words and a record's payload.
    fn note(&mut self, p: usize, next: usize, kept: bool, kind: Kind)
        requires { (p < next) × (next ≤ block_words * table_entries) }
        ensures { Notes p next kept (is_record kind) self.old.headers self.old.words self.old.fields
            self.new.headers self.new.words self.new.fields }
    {
        bits::set_part(&mut self.headers, p, 1);
        if kept {
            let payload = p + 1;
            bits::set_range(&mut self.words, p, next);
            match kind {
                Kind::Record => bits::set_range(&mut self.fields, payload, next),
                Kind::Raw => {}
            }
        }
    }

    // The first bad header, or the top and no `Option`, since where it ends is what `Walked` is about. How far a turn goes is in
    // the heap, so no range counts the turns.
    pub fn walk(&mut self, heap: &[u32], top: usize, marks: &[u64]) -> usize
        requires { Blank heap.now top self.old.headers self.old.words self.old.fields }
        ensures { Walked heap.now top (marked marks.now) self.new.headers self.new.words self.new.fields result }
    {
        let mut p: usize = 0;
        let end = 'objects: loop {
            if p == top {
                break 'objects p;
            }
            let Some(header) = Header::read(heap[p]) else {
                break 'objects p;
            };
            let n = header.count as usize;
            if top - p - 1 < n {
                break 'objects p;
            }
            let next = p + 1 + n;
            let kept = bits::test(marks, p);
            self.note(p, next, kept, header.kind);
            p = next;
        };
        end
    }
}
