// What the benchmark times, under C names: the tests on bytes, by words and by single bytes.
#![tactic(auto)]

ghost use Rattle.std.specs.Prelude.{◌≡◌};
ghost use Rattle.scheme.specs.Bytes.{all_zero, same_bytes};

use octets::by_bytes::{all_zero_by_bytes, same_by_bytes};
use octets::memory::{all_zero, same};

// Both are equally long and have the same bytes.
#[unsafe(no_mangle)]
pub extern "C" fn pahyndoi_timed_same(a: &[u8], b: &[u8]) -> bool
    ensures { result ≡ same_bytes a.now b.now }
{
    same(a, b)
}

#[unsafe(no_mangle)]
pub extern "C" fn pahyndoi_timed_same_by_bytes(a: &[u8], b: &[u8]) -> bool
    ensures { result ≡ same_bytes a.now b.now }
{
    same_by_bytes(a, b)
}

// All bytes are zero.
#[unsafe(no_mangle)]
pub extern "C" fn pahyndoi_timed_all_zero(bytes: &[u8]) -> bool
    ensures { result ≡ all_zero bytes.now }
{
    all_zero(bytes)
}

#[unsafe(no_mangle)]
pub extern "C" fn pahyndoi_timed_all_zero_by_bytes(bytes: &[u8]) -> bool
    ensures { result ≡ all_zero bytes.now }
{
    all_zero_by_bytes(bytes)
}
