// The list of log lengths, lent as bytes.
ghost use Rattle.std.specs.Prelude.{◌≡◌, ◌*◌, ◌≤◌, length, take};
ghost use Rattle.audited.specs.Lengths.{words, Counted};

use octets::words::read_u32;
use scheme::ranges::MAX_PHASES;

// The bytes of a length.
const LENGTH_SIZE: usize = 4;

// So many lengths, and zeros behind them. No heap: they stand in an array.
#[derive(Clone, Copy)]
pub struct Lengths {
    all: [u32; 8],
    count: usize,
    ghost few: { count ≤ 8 },
}

impl Lengths {
    // The lengths that the bytes give.
    pub fn of(bytes: &[u8]) -> Self
        ensures counted { Counted (length bytes.now) result.count }
        ensures read { take result.count result.all ≡ words result.count bytes.now }
    {
        let count = count_lengths(bytes.len());
        Lengths {
            all: read_lengths(bytes, count),
            count,
        }
    }

    pub fn as_slice(&self) -> &[u32]
        ensures { result.now ≡ take self.now.count self.now.all }
    {
        &self.all[..self.count]
    }
}

// How many lengths so many bytes give. Where a length is cut or no store has so many phases, they are no list, which rule 5 refuses as an
// empty one: so there is no `None` for them.
fn count_lengths(size: usize) -> usize
    ensures { Counted size result }
{
    if size > LENGTH_SIZE * (MAX_PHASES as usize) || size % LENGTH_SIZE != 0 {
        return 0;
    }
    size / LENGTH_SIZE
}

// The lengths that the bytes give, and zeros behind them.
fn read_lengths(bytes: &[u8], count: usize) -> [u32; 8]
    requires { (count ≤ 8) × (4 * count ≤ length bytes.now) }
    ensures { take count result ≡ words count bytes.now }
{
    // By place in both: there may be more bytes, and more room, than lengths.
    let mut lengths = [0; 8];
    for i in 0..count {
        lengths[i] = read_u32(bytes, LENGTH_SIZE * i);
    }
    lengths
}
