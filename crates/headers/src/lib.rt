// An object's header: its kind and its count of payload words in one word.
#![tactic(auto)]

ghost use Rattle.std.specs.Prelude.{◌≡◌, ◌≤◌};
ghost use Rattle.meaning.specs.Limits.{payload_words};
ghost use Rattle.headers.specs.Paper.{header_of, word_of};

use limits::PAYLOAD_WORDS;

// A record's payload words are values; a raw object's are never interpreted.
#[derive(Clone, Copy, Debug, PartialEq, Eq)]
pub enum Kind {
    Record,
    Raw,
}

// What a legal header says.
#[derive(Clone, Copy, Debug, PartialEq, Eq)]
pub struct Header {
    pub kind: Kind,
    pub count: u32,
}

impl Header {
    // The header that a word is: below 4,096, of kind 0 or 1. Not `TryFrom`: there is nothing that its error could say.
    pub fn read(word: u32) -> Option<Header>
        ensures { result ≡ header_of word }
    {
        if 4 * (PAYLOAD_WORDS + 1) <= word {
            return None;
        }
        let count = word / 4;
        match word % 4 {
            0 => Some(Header {
                kind: Kind::Record,
                count,
            }),
            1 => Some(Header {
                kind: Kind::Raw,
                count,
            }),
            _ => None,
        }
    }

    pub fn word(self) -> u32
        requires { self.count ≤ payload_words }
        ensures { result ≡ word_of self }
    {
        let kind = match self.kind {
            Kind::Record => 0,
            Kind::Raw => 1,
        };
        4 * self.count + kind
    }
}
