// Tests on bytes, eight at a step.
ghost use Rattle.std.specs.Prelude.{◌≡◌, ◌+◌, ◌*◌, ◌≤◌, length, take};
ghost use Rattle.scheme.specs.Bytes.{all_zero, same_bytes, part};

use crate::words::{WORD_LENGTH, read_u64};

// Words that are compared before the answer is looked at: the machine then takes several at a time.
const TOGETHER: usize = 48;

// The bytes of so many words are zero. It goes on to the last word, whatever it meets.
pub fn zero_words(bytes: &[u8], count: usize) -> bool
    requires { 8 * count ≤ length bytes.now }
    ensures { result ≡ all_zero (take (8 * count) bytes.now) }
{
    // By place: an iterator over words would first cut the bytes to so many of them.
    let mut met = 0;
    for i in 0..count {
        met |= read_u64(bytes, WORD_LENGTH * i);
    }
    met == 0
}

// The bytes of so many words are the same. Where they differ, it stops behind the words that were compared together.
pub fn same_words(a: &[u8], b: &[u8], count: usize) -> bool
    requires { (8 * count ≤ length a.now) × (8 * count ≤ length b.now) }
    ensures { result ≡ same_bytes (take (8 * count) a.now) (take (8 * count) b.now) }
{
    // Counted by hand: a `for` wants `count / TOGETHER` at once, which takes a tenth of the time that 32 bytes take.
    let mut k = 0;
    while TOGETHER <= count - k {
        if !same_together(a, b, WORD_LENGTH * k, TOGETHER) {
            return false;
        }
        k += TOGETHER;
    }
    same_together(a, b, WORD_LENGTH * k, count - k)
}

// From a place on, the bytes of so many words are the same. It goes on to the last word, whatever it meets.
fn same_together(a: &[u8], b: &[u8], from: usize, count: usize) -> bool
    requires { (from + 8 * count ≤ length a.now) × (from + 8 * count ≤ length b.now) }
    ensures { result ≡ same_bytes (part a.now from (8 * count)) (part b.now from (8 * count)) }
{
    // By place, as above, and in two parts at once.
    let mut differing = 0;
    for j in 0..count {
        let at = from + WORD_LENGTH * j;
        differing |= read_u64(a, at) ^ read_u64(b, at);
    }
    differing == 0
}
