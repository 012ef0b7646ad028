// A record of the script, and what its bytes say.
ghost use Rattle.std.specs.Prelude.{◌≤◌};

use layout::HEADER_LENGTH;
use std::array;

pub const RECORD_LENGTH: usize = 64;

// The numbers that a record lists, and where they begin.
const LISTED: usize = 12;

const LIST_START: usize = 16;

// The counts of a plan, and the last place at which those that are listed may begin.
pub const MAX_COUNTS: usize = 66;

const LAST_START: usize = 54;

// The most data that a record appends.
pub const MAX_DATA: usize = 4097;

// The most bytes that a record sets, and where they begin.
pub const MAX_BYTES: usize = 54;

const BYTES_START: usize = 8;

#[derive(Clone, Copy)]
pub struct Record<'a>(pub &'a [u8; RECORD_LENGTH]);

impl<'a> Record<'a> {
    // The byte at a place, 0 past the end.
    pub fn byte(self, at: usize) -> u8 {
        let bytes = self.0;
        bytes.get(at).copied().unwrap_or(0)
    }

    // So many bytes from a place on, zeros where they pass the end.
    fn bytes<const N: usize>(self, at: usize) -> [u8; N] {
        let bytes = self.0;
        bytes
            .get(at..)
            .and_then(|rest| rest.first_chunk())
            .copied()
            .unwrap_or([0; N])
    }

    // The number of four bytes at a place.
    pub fn word(self, at: usize) -> u32 {
        u32::from_le_bytes(self.bytes(at))
    }

    // The same, as a length or an index.
    pub fn size(self, at: usize) -> usize {
        self.word(at) as usize
    }

    // The byte at a place as a count, at most so many.
    pub fn count(self, at: usize, most: usize) -> usize
        ensures { result ≤ most }
    {
        most.min(usize::from(self.byte(at)))
    }

    // The seal length: the number of the eight bytes at 8.
    pub fn seal_length(self) -> u64 {
        u64::from_le_bytes(self.bytes(8))
    }

    // The numbers that are listed: log lengths, or counts.
    pub fn listed(self) -> [u32; LISTED] {
        array::from_fn(|i| self.word(LIST_START + 4 * i))
    }

    // The counts of a plan: one at every place but those of the counts that are listed.
    pub fn counts(self) -> [u32; MAX_COUNTS] {
        let mut counts = [self.word(8); MAX_COUNTS];
        let start = self.count(2, LAST_START);
        counts[start..start + LISTED].copy_from_slice(&self.listed());
        counts
    }

    // The bytes that are set.
    pub fn set_bytes(self) -> [u8; MAX_BYTES] {
        self.bytes(BYTES_START)
    }

    // The data that are appended: bytes that count up from the first.
    pub fn appended(self) -> [u8; MAX_DATA] {
        let first = self.byte(8);
        array::from_fn(|i| first.wrapping_add((i % 256) as u8))
    }

    // The text, up to its first zero byte.
    pub fn text(self) -> &'a [u8] {
        let bytes = self.0;
        let text = &bytes[1..];
        let n = text.iter().position(|&b| b == 0).unwrap_or(text.len());
        &text[..n]
    }

    // The byte at a place of a store: the kind, the id 1 to 8, the phases and the two counts, which the record has six places
    // earlier; its bytes of a set, which it has six places later; then key bytes, none of them 0.
    pub fn store_byte(self, at: usize) -> u8 {
        if self.header_length() <= at {
            return ((at % 255 * 7 + 3) % 255 + 1) as u8;
        }
        if HEADER_LENGTH as usize <= at {
            return self.byte(at + 6);
        }
        match at {
            0 => self.byte(1),
            1..9 => at as u8,
            9 => self.byte(2),
            _ => self.byte(at - 6),
        }
    }

    // The bytes before the chunks; byte 3 says how many of them are a set's.
    fn header_length(self) -> usize
        ensures { result ≤ 273 }
    {
        HEADER_LENGTH as usize + usize::from(self.byte(3))
    }
}
