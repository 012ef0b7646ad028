// The ranges of a header's counts and parameters (FORMAT.md, 2).
ghost use Rattle.std.specs.Prelude.{◌≡◌};
ghost use Rattle.scheme.specs.Fields.{bad_fields};
ghost use Rattle.scheme.specs.Rules as Rules;

use crate::Header;

// The most phases, chunks and keys a chunk that a store may have.
pub const MAX_PHASES: u32 = 8;

pub const MAX_CHUNKS: u32 = 1024;

pub const MAX_RATCHET: u32 = 256;

// The least and the most that a set may name: bytes of a tag, data of an entry, bytes of a phase's log.
pub const MIN_TAG_LENGTH: u32 = 16;

pub const MAX_TAG_LENGTH: u32 = 32;

pub const MIN_DATA_LIMIT: u32 = 1;

pub const MAX_DATA_LIMIT: u32 = 4096;

pub const MIN_LOG_CAPACITY: u32 = 512;

pub const MAX_LOG_CAPACITY: u32 = 65536;

// A count or a parameter that no store may have.
pub fn out_of_range(header: Header) -> bool
    ensures { result ≡ bad_fields header }
{
    if outside(1, MAX_PHASES, header.phases as u32) {
        return true;
    }
    if outside(1, MAX_CHUNKS, header.chunks) {
        return true;
    }
    if outside(1, MAX_RATCHET, header.ratchet) {
        return true;
    }
    if outside(MIN_TAG_LENGTH, MAX_TAG_LENGTH, header.tag_length) {
        return true;
    }
    if outside(MIN_DATA_LIMIT, MAX_DATA_LIMIT, header.data_limit) {
        return true;
    }
    if outside(MIN_LOG_CAPACITY, MAX_LOG_CAPACITY, header.log_capacity) {
        return true;
    }
    header.log_capacity < header.data_limit
}

// A number outside its range.
pub fn outside(low: u32, high: u32, n: u32) -> bool
    ensures { result ≡ Rules.outside low high n }
{
    if n < low {
        return true;
    }
    high < n
}
