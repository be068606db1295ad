// What C is told: a number, 0 where accepted, else the refusal's number + 256 * the place reported; and values in the four words `out`,
// which stay as found on a refusal.
#![tactic(auto)]

ghost use Rattle.std.specs.Prelude.{ℕ, ◌+◌, ◌*◌, ◌≡◌, ◌≤◌, List};
ghost use Rattle.std.proofs.lemmas.List.Edits.{sets};
ghost use Rattle.refusals.specs.Paper.{number_of, place_of, answer_by};
ghost use Rattle.objects.specs.Examined.{counts_of};
ghost use Rattle.tables.specs.Paper.{found_of};
ghost use Rattle.compactor.specs.Collects.{totals_of};
ghost use Rattle.store.specs.Contract.{paper_said};
ghost use Rattle.telling.specs.Out.{Says, code as code_of, count_words, found_words, total_words, said_words};

use compactor::Totals;
use objects::Counts;
use refusals::Refusal;
use store::Said;
use words::Place;

// What goes into the four words: so many values, in front.
pub trait Values {
    ghost words: { Self → List ℕ };

    fn put(self, out: &mut [u64; 4])
        ensures { out.new ≡ sets out.old 0 (words self) };
}

// The values in front; the words behind them stay as found.
fn put_front<const N: usize>(out: &mut [u64; 4], values: [u64; N])
    requires { N ≤ 4 }
    ensures { out.new ≡ sets out.old 0 values.entry }
{
    out[..N].copy_from_slice(&values);
}

// The check's values.
impl Values for Counts {
    ghost words = { λ c. count_words (counts_of c) };

    fn put(self, out: &mut [u64; 4]) {
        put_front(out, [self.live, self.objects].map(u64::from));
    }
}

// The bare collection's.
impl Values for Totals {
    ghost words = { λ t. total_words (totals_of t) };

    fn put(self, out: &mut [u64; 4]) {
        put_front(out, [self.top, self.objects, self.blocks].map(u64::from));
    }
}

// A lookup's.
impl Values for Option<Place> {
    ghost words = { λ p. found_words (found_of p) };

    fn put(self, out: &mut [u64; 4]) {
        match self {
            Some(place) => put_front(out, [1, u64::from(place.number())]),
            None => put_front(out, [0]),
        }
    }
}

// A store call's.
impl Values for Said {
    ghost words = { λ a. said_words (paper_said a) };

    fn put(self, out: &mut [u64; 4]) {
        match self {
            Said::Done => {}
            Said::Integer(value) => put_front(out, [0, i64::from(value).cast_unsigned()]),
            Said::Nil => put_front(out, [1]),
            Said::Record(count) => put_front(out, [2, u64::from(count)]),
            Said::Raw(count) => put_front(out, [3, u64::from(count)]),
            Said::Word(word) => put_front(out, [u64::from(word)]),
            Said::Same(same) => put_front(out, [u64::from(same)]),
            Said::Collected(top, objects, blocks) => {
                put_front(out, [top, objects, blocks].map(u64::from))
            }
        }
    }
}

// A refusal's number + 256 * the place reported, as C's interface has it; of any two numbers.
pub fn refused(number: u32, place: u32) -> u64
    ensures { result ≡ number + 256 * place }
{
    u64::from(number) + 256 * u64::from(place)
}

// Why a call is refused, as C is told it.
pub trait Reason {
    ghost number: { Self → ℕ };

    ghost place: { Self → ℕ };

    fn told(self) -> u64
        ensures { result ≡ number self + 256 * place self };
}

impl Reason for Refusal {
    ghost number = { number_of };

    ghost place = { place_of };

    fn told(self) -> u64 {
        refused(self.number(), self.place())
    }
}

// Any two numbers, also where no call of this library is refused by them.
#[derive(Clone, Copy, Debug, PartialEq, Eq)]
pub struct Numbers {
    pub number: u32,
    pub place: u32,
}

impl Reason for Numbers {
    ghost number = { λ r. r.number };

    ghost place = { λ r. r.place };

    fn told(self) -> u64 {
        refused(self.number, self.place)
    }
}

// The number alone, for a call that has no values.
pub fn code<E: Reason>(answer: Result<Said, E>) -> u64
    ensures { result ≡ code_of (answer_by E.number E.place paper_said answer) }
{
    match answer {
        Ok(_) => 0,
        Err(reason) => reason.told(),
    }
}

// The number, and the values in the lent words.
pub fn say<T: Values, E: Reason>(answer: Result<T, E>, out: &mut [u64; 4]) -> u64
    ensures { Says (λ ws. ws) (answer_by E.number E.place T.words answer) out.old result out.new }
{
    match answer {
        Ok(values) => {
            values.put(out);
            0
        }
        Err(reason) => reason.told(),
    }
}
