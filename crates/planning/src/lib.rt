// What a card needs before it is packed: the least ratchet with which its chunks last for the entries to come.
#![tactic(auto)]

ghost use Rattle.std.specs.Prelude.{◌≡◌, false};
ghost use Rattle.planning.specs.Chunks.{bad_plan};
ghost use Rattle.planning.specs.Ratchet.{planned, Between};

mod counting;

use counting::chunks_for;
use octets::memory::any_over;
use scheme::Refusal;
use scheme::ranges::outside;

// The most counts, the largest of them, the most chunks of a card, and the largest ratchet.
const MOST_COUNTS: usize = 64;

const LARGEST_COUNT: u32 = 65536;

const MOST_CHUNKS: u32 = 1024;

const LARGEST_RATCHET: u32 = 256;

// The least ratchet from 1 to 256 with which so many chunks last for the counts of entries, each count followed by a close, `None` where none
// lasts. Its only check is 25.
pub fn least_ratchet(counts: &[u32], chunks: u32) -> Result<Option<u32>, Refusal>
    ensures { result ≡ planned counts.now chunks }
{
    if bad_plan(counts, chunks) {
        return Err(Refusal::BadPlan);
    }
    let n = halved(counts, chunks);
    if LARGEST_RATCHET < n {
        return Ok(None);
    }
    Ok(Some(n))
}

// 25: too many counts, a count too large, or a chunk count that no card has.
fn bad_plan(counts: &[u32], chunks: u32) -> bool
    ensures { result ≡ bad_plan counts.now chunks }
{
    if MOST_COUNTS < counts.len() {
        return true;
    }
    if any_over(LARGEST_COUNT, counts) {
        return true;
    }
    outside(1, MOST_CHUNKS, chunks)
}

// The first ratchet from which on the chunks last, one past the largest where none does. Since a larger ratchet never takes more
// chunks, each test halves what is left. A range has no `partition_point`, and `find` would make up to 256 sums in place of nine.
fn halved(counts: &[u32], chunks: u32) -> u32
    requires { bad_plan counts.now chunks ≡ false }
    ensures { Between counts.now chunks result result }
{
    let mut low = 1;
    let mut high = LARGEST_RATCHET + 1;
    while low < high {
        let middle = (low + high) / 2;
        if chunks_for(counts, middle) <= chunks {
            high = middle;
        } else {
            low = middle + 1;
        }
    }
    low
}
