// The value word: a small integer, nil or a reference in 32 bits. It is made and read here alone.
#![tactic(auto)]

ghost use Rattle.std.specs.Prelude.{◌≡◌, ◌≤◌, cond, ◌/◌};
ghost use Rattle.meaning.specs.Values.{int, ref, is_ref, last_place, ref_to, value_of, make};
ghost use Rattle.words.specs.Paper.{shown_value, made_word};

use refusals::Refusal;

// A word of the heap or of the roots: a small integer, nil, or a reference.
#[derive(Clone, Copy, Debug, PartialEq, Eq)]
pub struct Word(u32);

// A word's number in the heap. Its own type, so that it is never taken for a value word.
#[derive(Clone, Copy, Debug, PartialEq, Eq)]
pub struct Place(u32);

// What a word stands for.
#[derive(Clone, Copy, Debug, PartialEq, Eq)]
pub enum Shown {
    Int(i32),
    Nil,
    Ref(Place),
}

// `at` and `number`, and `from_bits` and `bits` below, say which way a number is meant, as `f32::from_bits` does; `From` would
// not. `of_int` and `of_place` make a word from two sorts of numbers, and are told apart by their names as well.
impl Place {
    // The highest place that a reference can be to; one more would be nil.
    pub const LAST: u32 = 2147483646;

    pub fn at(number: u32) -> Place
        ensures { result.0 ≡ number }
    {
        Place(number)
    }

    pub fn number(self) -> u32
        ensures { result ≡ self.0 }
    {
        self.0
    }
}

impl Word {
    // The least and the greatest integer that have a word.
    pub const LEAST: i32 = -1073741824;

    pub const GREATEST: i32 = 1073741823;

    // The only odd word that is no reference.
    pub const NIL: Word = Word(4294967295);

    // Any 32 bits are a word, so words come from the heap and go back unchecked.
    pub fn from_bits(bits: u32) -> Word
        ensures { result.0 ≡ bits }
    {
        Word(bits)
    }

    pub fn bits(self) -> u32
        ensures { result ≡ self.0 }
    {
        self.0
    }

    // Even words are twice an integer, in two's complement; the last word is nil; the others are references.
    #[tactic(auto, using(crate::proofs::Twice::half_read), unfolding(meaning::specs::Values::value_of))]
    pub fn shown(self) -> Shown
        ensures { shown_value result ≡ value_of self.0 }
    {
        if self.0 % 2 == 0 {
            return Shown::Int(self.0.cast_signed() >> 1);
        }
        if self == Word::NIL {
            return Shown::Nil;
        }
        Shown::Ref(self.target())
    }

    pub fn is_ref(self) -> bool
        ensures { result ≡ is_ref self.0 }
    {
        (self.0 % 2 == 1) & (self != Word::NIL)
    }

    // 1 for a reference, else 0: without a branch, for loops over many words.
    pub fn ref_bit(self) -> u64
        ensures { result ≡ cond (is_ref self.0) 1 0 }
    {
        u64::from(self.is_ref())
    }

    // The place that a reference is to.
    pub fn target(self) -> Place
        ensures { result.0 ≡ self.0 / 2 }
    {
        Place(self.0 / 2)
    }

    // The word of an integer, refused outside LEAST to GREATEST.
    #[tactic(auto, using(crate::proofs::Twice::twice_word), unfolding(meaning::specs::Values::make))]
    pub fn of_int(v: i32) -> Result<Word, Refusal>
        ensures { made_word result ≡ make (int v) }
    {
        if !(Word::LEAST..=Word::GREATEST).contains(&v) {
            return Err(Refusal::OutOfRange);
        }
        Ok(Word((2 * v).cast_unsigned()))
    }

    // The word of a reference to a place that has one.
    pub fn reference(p: Place) -> Word
        requires { p.0 ≤ last_place }
        ensures { result.0 ≡ ref_to p.0 }
    {
        Word(2 * p.0 + 1)
    }

    // The word of a reference to a place, refused above the last place.
    #[tactic(auto, unfolding(meaning::specs::Values::make, meaning::specs::Values::word_of))]
    pub fn of_place(p: Place) -> Result<Word, Refusal>
        ensures { made_word result ≡ make (ref p.0) }
    {
        if Place::LAST < p.0 {
            return Err(Refusal::OutOfRange);
        }
        Ok(Word::reference(p))
    }
}
