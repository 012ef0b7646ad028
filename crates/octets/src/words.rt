// Numbers of four and of eight bytes, little-endian.
ghost use Rattle.std.specs.Prelude.{◌≡◌, ◌+◌, ◌≤◌, ◌<◌, length};
ghost use Rattle.scheme.specs.Bytes.{le, num, part};

// The number that the four bytes at a place give.
pub fn read_u32(bytes: &[u8], at: usize) -> u32
    requires { at + 4 ≤ length bytes.now }
    ensures { result ≡ num (part bytes.now at 4) }
{
    u32::from_le_bytes(array_at(bytes, at))
}

// Bytes of a word.
pub const WORD_LENGTH: usize = 8;

// The number that the eight bytes at a place give.
pub fn read_u64(bytes: &[u8], at: usize) -> u64
    requires { at + 8 ≤ length bytes.now }
    ensures { result ≡ num (part bytes.now at 8) }
{
    let word: [u8; 8] = array_at(bytes, at);
    u64::from_le_bytes(word)
}

// So many bytes from a place on.
fn array_at<const N: usize>(bytes: &[u8], at: usize) -> [u8; N]
    requires { (0 < N) × (at + N ≤ length bytes.now) }
    ensures { result ≡ part bytes.now at N }
{
    let (arrays, _) = bytes[at..].as_chunks();
    arrays[0]
}

// The bytes of a number as an array.
pub fn le32(n: u32) -> [u8; 4]
    ensures { result ≡ le 4 n }
{
    n.to_le_bytes()
}
