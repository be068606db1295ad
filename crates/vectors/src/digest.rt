// A digest of buffers, for calls that change them: any one word that differs gives another digest.
use refusals::Refusal;
use std::fmt;
use store::Said;

#[derive(Clone, Copy)]
pub struct Digest(u64);

impl Digest {
    pub const START: Digest = Digest(14695981039346656037);

    // A word goes in by xor; then a product with 2^21 + 1, wrapping; then the high bits come down.
    pub fn word(self, word: u64) -> Digest {
        let mixed = self.0 ^ word;
        let product = mixed.wrapping_add(mixed << 21);
        Digest(product ^ (product >> 29))
    }

    pub fn words<T: Copy + Into<u64>>(self, buffer: &[T]) -> Digest {
        buffer
            .iter()
            .fold(self, |digest, word| digest.word((*word).into()))
    }

    fn four(self, number: u64, a: u32, b: u32, c: u32) -> Digest {
        self.words(&[number, u64::from(a), u64::from(b), u64::from(c)])
    }

    // What a call says, or why it is refused, as a number and three values, in the stored cases' numbers. Inlined, so that what is said
    // is not copied on the way.
    #[inline(always)]
    pub fn said(self, said: Result<Said, Refusal>) -> Digest {
        match said {
            Ok(Said::Done) => self.four(0, 0, 0, 0),
            Ok(Said::Integer(value)) => self.four(1, value.cast_unsigned(), 0, 0),
            Ok(Said::Nil) => self.four(2, 0, 0, 0),
            Ok(Said::Record(count)) => self.four(3, count, 0, 0),
            Ok(Said::Raw(count)) => self.four(4, count, 0, 0),
            Ok(Said::Word(word)) => self.four(5, word, 0, 0),
            Ok(Said::Same(same)) => self.four(6, u32::from(same), 0, 0),
            Ok(Said::Collected(top, objects, blocks)) => self.four(7, top, objects, blocks),
            Err(refusal) => self.four(8, refusal.number(), refusal.place(), 0),
        }
    }
}

impl fmt::Display for Digest {
    fn fmt<W: fmt::Write>(&self, f: &mut fmt::Formatter<W>) -> fmt::Result {
        let digest = self.0;
        write!(f, "{digest:016x}")
    }
}
