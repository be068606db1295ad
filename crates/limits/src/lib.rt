// The limits as the code has them: the numbers of meaning's Limits, each once.
#![tactic(auto)]

ghost use Rattle.std.specs.Prelude.{◌≡◌};
ghost use Rattle.meaning.specs.Limits.{blocks_of};

// Words of a heap, at most.
pub const HEAP_WORDS: usize = 8192;

// Root slots, at most.
pub const ROOT_SLOTS: usize = 64;

// Entries of a block order, at most.
pub const ORDER_ENTRIES: usize = 128;

// Payload words of an object, at most.
pub const PAYLOAD_WORDS: u32 = 1023;

// Words of a block, so bits of a bitmap word.
pub const BLOCK_WORDS: usize = 64;

// Entries of a bitmap or table for the largest heap.
pub const TABLE_ENTRIES: usize = HEAP_WORDS / BLOCK_WORDS;

// How many blocks so many words take.
pub fn blocks_of(words: usize) -> usize
    ensures { result ≡ blocks_of words }
{
    words.div_ceil(BLOCK_WORDS)
}
