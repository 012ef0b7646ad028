// Tests on bytes, one at a step: the tails of those by words, and what the benchmark sets beside them.
ghost use Rattle.std.specs.Prelude.{◌≡◌};
ghost use Rattle.scheme.specs.Bytes.{all_zero, same_bytes};

// All bytes are zero.
pub fn all_zero_by_bytes(bytes: &[u8]) -> bool
    ensures { result ≡ all_zero bytes.now }
{
    // A loop: by the library's `all`, `all_zero` takes a fifth longer for a tail of five bytes.
    for byte in bytes {
        if *byte != 0 {
            return false;
        }
    }
    true
}

// Both are equally long and have the same bytes.
pub fn same_by_bytes(a: &[u8], b: &[u8]) -> bool
    ensures { result ≡ same_bytes a.now b.now }
{
    if a.len() != b.len() {
        return false;
    }
    // A loop by place: by `zip`, `same` takes a seventh longer for 32 bytes.
    for k in 0..a.len() {
        if a[k] != b[k] {
            return false;
        }
    }
    true
}
