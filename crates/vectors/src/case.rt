// A case, read from its start: little-endian words of 32 bits, and of 64.

// The buffers are larger than the library's limits, so that it is seen to refuse what is too long.
pub const HEAP_ROOM: usize = 8256;

pub const ROOT_ROOM: usize = 72;

pub const TABLE_ROOM: usize = 144;

// What a case holds: how one is read, and the bytes after it. None where the bytes end before it does.
pub trait Held: Copy {
    fn read(bytes: &[u8]) -> Option<(Self, &[u8])>;

    // How many bytes n of it have.
    fn bytes(n: u32) -> usize;
}

impl Held for u32 {
    fn bytes(n: u32) -> usize {
        4 * (n as usize)
    }

    fn read(bytes: &[u8]) -> Option<(u32, &[u8])> {
        let (first, rest) = bytes.split_first_chunk::<4>()?;
        Some((u32::from_le_bytes(*first), rest))
    }
}

impl Held for u64 {
    fn bytes(n: u32) -> usize {
        8 * (n as usize)
    }

    fn read(bytes: &[u8]) -> Option<(u64, &[u8])> {
        let (first, rest) = bytes.split_first_chunk::<8>()?;
        Some((u64::from_le_bytes(*first), rest))
    }
}

// What is left of a case.
#[derive(Clone, Copy)]
pub struct Case<'a> {
    pub rest: &'a [u8],
}

impl Case<'_> {
    pub fn next<T: Held>(&mut self) -> Option<T> {
        let (value, rest) = T::read(self.rest)?;
        self.rest = rest;
        Some(value)
    }

    // The first n entries of the buffer, filled; None where it has fewer, or the case ends before.
    pub fn fill<'b, T: Held>(&mut self, n: u32, buffer: &'b mut [T]) -> Option<&'b mut [T]> {
        let part = buffer.get_mut(..n as usize)?;
        for entry in part.iter_mut() {
            *entry = self.next()?;
        }
        Some(part)
    }

    // Past n entries, unread; None where a buffer of so much room has fewer, or the case ends before.
    pub fn pass<T: Held>(&mut self, n: u32, room: usize) -> Option<()> {
        if room < n as usize {
            return None;
        }
        self.rest = self.rest.get(T::bytes(n)..)?;
        Some(())
    }

    // Some where nothing is left.
    pub fn end(&self) -> Option<()> {
        self.rest.is_empty().then_some(())
    }
}
