// The tests by words answer as those by single bytes do, whatever they are lent.
ghost use Rattle.std.specs.Prelude.{◌≡◌, true};

use crate::by_bytes::{all_zero_by_bytes, same_by_bytes};
use crate::memory::{all_zero, same};

// Whether both zero tests give one answer: they always do.
pub fn all_zero_alike(bytes: &[u8]) -> bool
    ensures { result ≡ true }
{
    all_zero(bytes) == all_zero_by_bytes(bytes)
}

// Whether both comparisons give one answer: they always do.
pub fn same_alike(a: &[u8], b: &[u8]) -> bool
    ensures { result ≡ true }
{
    same(a, b) == same_by_bytes(a, b)
}
