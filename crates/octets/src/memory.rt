// Writing into memory, and tests on bytes and numbers. Those on bytes go eight at a step, since an auditor waits while stores are compared.
ghost use Rattle.std.specs.Prelude.{◌≡◌, ◌+◌, ◌≤◌, length, replicate};
ghost use Rattle.scheme.specs.Bytes.{splice, all_zero, same_bytes};
ghost use Rattle.scheme.specs.Store.{any_over};

use crate::by_bytes::{all_zero_by_bytes, same_by_bytes};
use crate::by_words::{same_words, zero_words};
use crate::words::WORD_LENGTH;

// The bytes written at a place, and the rest of the memory as it was.
pub fn write(memory: &mut [u8], at: usize, bytes: &[u8])
    requires { at + length bytes.now ≤ length memory.old }
    ensures { memory.new ≡ splice memory.old at bytes.now }
{
    // A loop by place: `copy_from_slice` asks a firmware for `memmove`, and the archive may ask for `memcpy` and `memset` alone.
    for i in 0..bytes.len() {
        memory[at + i] = bytes[i];
    }
}

// Zeros written at a place, and the rest of the memory as it was.
pub fn clear(memory: &mut [u8], at: usize, n: usize)
    requires { at + n ≤ length memory.old }
    ensures { memory.new ≡ splice memory.old at (replicate n 0) }
{
    memory[at..at + n].fill(0);
}

// All bytes are zero.
pub fn all_zero(bytes: &[u8]) -> bool
    ensures { result ≡ all_zero bytes.now }
{
    let words = bytes.len() / WORD_LENGTH;
    if !zero_words(bytes, words) {
        return false;
    }
    let k = WORD_LENGTH * words;
    all_zero_by_bytes(&bytes[k..])
}

// Both are equally long and have the same bytes.
pub fn same(a: &[u8], b: &[u8]) -> bool
    ensures { result ≡ same_bytes a.now b.now }
{
    let n = a.len();
    if n != b.len() {
        return false;
    }
    let words = n / WORD_LENGTH;
    if !same_words(a, b, words) {
        return false;
    }
    let k = WORD_LENGTH * words;
    same_by_bytes(&a[k..], &b[k..])
}

// Some number is over the limit.
pub fn any_over(limit: u32, xs: &[u32]) -> bool
    ensures { result ≡ any_over limit xs.now }
{
    // A loop: the library's `any` takes half as long again.
    for x in xs {
        if limit < *x {
            return true;
        }
    }
    false
}
