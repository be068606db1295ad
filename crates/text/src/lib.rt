// The lines that the program prints, written into a buffer that the caller lends.
#![tactic(auto)]

ghost use Rattle.std.specs.Prelude.{[], ◌+◌, ◌*◌, ◌≤◌, ◌<◌, ◌++◌, ◌∷◌, length};
ghost use Rattle.meaning.specs.Answers.{gives};
ghost use Rattle.meaning.specs.Text.{decimal, spaced, newline, refused_line, lines};
ghost use Rattle.text.specs.Placed.{Placed, Puts};

use itoa::Buffer;

// A buffer, and the place after what is written in it.
#[derive(Drop)]
struct Line<'a> {
    out: &'a mut [u8],
    at: usize,
}

// All inlined, so that the place need not go through memory.
impl Line<'_> {
    #[inline(always)]
    fn put(&mut self, text: &str)
        requires { self.old.at + length text.now ≤ length self.old.out.now }
        ensures { Puts self.old self.new text.now (length text.now) }
    {
        let end = self.at + text.len();
        self.out[self.at..end].copy_from_slice(text.as_bytes());
        self.at = end;
    }

    #[inline(always)]
    fn put_digit(&mut self, digit: u32)
        requires { (digit < 10) × (self.old.at + 1 ≤ length self.old.out.now) }
        ensures { Puts self.old self.new ((48 + digit) ∷ []) 1 }
    {
        let end = self.at + 1;
        self.out[self.at..end].copy_from_slice(&[48 + digit as u8]);
        self.at = end;
    }

    // In decimals, by itoa: a `write!` may answer an error, and no clause says when it does not. One digit or two are put by
    // themselves, since itoa takes longer for so few.
    #[inline(always)]
    fn put_number(&mut self, n: u32)
        requires { self.old.at + 10 ≤ length self.old.out.now }
        ensures { Puts self.old self.new (decimal n) 10 }
    {
        if n < 10 {
            self.put_digit(n);
            return;
        }
        if n < 100 {
            self.put_digit(n / 10);
            self.put_digit(n % 10);
            return;
        }
        let mut buffer = Buffer::new();
        self.put(buffer.format(n));
    }

    // Each after a space.
    #[inline(always)]
    fn put_numbers(&mut self, numbers: &[u32])
        requires { self.old.at + 11 * length numbers.now ≤ length self.old.out.now }
        ensures { Puts self.old self.new (spaced numbers.now) (11 * length numbers.now) }
    {
        for n in numbers {
            self.put(" ");
            self.put_number(*n);
        }
    }

    #[inline(always)]
    fn put_words(&mut self, name: &str, words: &[u32])
        requires { self.old.at + length name.now + 11 * length words.now + 1 ≤ length self.old.out.now }
        ensures { Puts self.old self.new (name.now ++ spaced words.now ++ newline) (length name.now + 11 * length words.now + 1) }
    {
        self.put(name);
        self.put_numbers(words);
        self.put("\n");
    }
}

// The line of a refusal, from the buffer's start. By number and place, and not by the enum: it is promised for any two numbers.
pub fn put_refused(out: &mut [u8], number: u32, place: u32) -> usize
    requires { 33 ≤ length out.old }
    ensures { Placed out.old out.new 0 (refused_line number place) 33 result }
{
    let mut line = Line { out, at: 0 };
    line.put("refused ");
    line.put_number(number);
    line.put(" at ");
    line.put_number(place);
    line.put("\n");
    line.at
}

// The three lines of a collection, from the buffer's start: the heap's first `top` words, and every root. The three numbers come by
// themselves, as the line names them: a type for them would say no more.
pub fn put_collected(
    out: &mut [u8],
    top: u32,
    objects: u32,
    blocks: u32,
    heap: &[u32],
    roots: &[u32],
) -> usize
    requires { (66 + 11 * top + 11 * length roots.now ≤ length out.old) × (top ≤ length heap.now) }
    ensures { Placed out.old out.new 0 (lines (gives (record { top = top; objects = objects; blocks = blocks })) heap.now roots.now) (66 + 11 * top + 11 * length roots.now) result }
{
    let mut line = Line { out, at: 0 };
    line.put("ok top ");
    line.put_number(top);
    line.put(" objects ");
    line.put_number(objects);
    line.put(" blocks ");
    line.put_number(blocks);
    line.put("\n");
    line.put_words("heap", &heap[..top as usize]);
    line.put_words("roots", roots);
    line.at
}
