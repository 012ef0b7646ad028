// A keyed state that takes a message part after part. By value, so that one key's state serves any number of messages.
ghost use Rattle.std.specs.Prelude.{◌≡◌, List, ◌++◌, map, ℕ};
ghost use Rattle.std.specs.Int.Bits.{bit_xor};
ghost use Rattle.hmac.specs.Rfc2104 as Rfc2104;
ghost use Rattle.hmac.specs.Keyed.{Keyed};

use sha256::state::{Sha256, first_block};

// The hash states that have absorbed the key's inner and outer block, the inner one with the message so far behind it.
#[derive(Clone, Copy)]
pub struct Hmac {
    pub inner: Sha256,
    pub outer: Sha256,
}

const BLOCK_LENGTH: usize = 64;

const OUTPUT_LENGTH: usize = 32;

const IPAD: u8 = 0x36;

const OPAD: u8 = 0x5c;

impl Hmac {
    // The state that stands for the front of a message under the key.
    pub fn new(key: &[u8], front: &[u8]) -> Self
        ensures { Keyed result key.now front.now }
    {
        let block = padded(key);
        Self {
            inner: Sha256::of_block_with(masked(block, IPAD), front),
            outer: Sha256::of_block(masked(block, OPAD)),
        }
    }

    // From the state that stands for m, the one that stands for m followed by the part, under the same key.
    pub fn update(self, part: &[u8]) -> Self
        ensures { (key m : List ℕ) → Keyed self key m → Keyed result key (m ++ part.now) }
    {
        Self {
            inner: self.inner.update(part),
            outer: self.outer,
        }
    }

    // The tag of the message that the state stands for, of as many bytes as are wanted, zeros behind them.
    pub fn finish(self, wanted: usize) -> [u8; 32]
        ensures { (key m : List ℕ) → Keyed self key m → result ≡ Rfc2104.tagged key m wanted }
    {
        let digest = self.inner.finish();
        cut(self.outer.finish_with(digest), wanted)
    }
}

// The same of a message that is handed whole: no keyed state is laid out in between.
pub fn tag(key: &[u8], message: &[u8], wanted: usize) -> [u8; 32]
    ensures { result ≡ Rfc2104.tagged key.now message.now wanted }
{
    let block = padded(key);
    let inner = masked(block, IPAD);
    let digest = Sha256::of_block(inner).update(message).finish();
    let outer = masked(block, OPAD);
    cut(Sha256::of_block(outer).finish_with(digest), wanted)
}

// The first bytes of an output, as many as are wanted, and zeros in the places behind them. All 32 are the output itself.
fn cut(output: [u8; 32], wanted: usize) -> [u8; 32]
    ensures { result ≡ Rfc2104.cut wanted output }
{
    if OUTPUT_LENGTH <= wanted {
        return output;
    }
    let mut t = [0; 32];
    t[..wanted].copy_from_slice(&output[..wanted]);
    t
}

// The key, hashed where it is longer than a block, with zeros behind it.
fn padded(key: &[u8]) -> [u8; 64]
    ensures { result ≡ Rfc2104.padded key.now }
{
    if BLOCK_LENGTH < key.len() {
        let digest = Sha256::new().update(key).finish();
        return first_block(&digest);
    }
    first_block(key)
}

// Each byte of the block XOR the byte p.
fn masked(block: [u8; 64], p: u8) -> [u8; 64]
    ensures { result ≡ map (λ k. bit_xor k p) block }
{
    let mut b = block;
    for x in &mut b {
        *x ^= p;
    }
    b
}
