// The compression of one block (FIPS 180-4, 6.2.2), and of a run of blocks where they lie.
#![tactic(auto)]

ghost use Rattle.std.specs.Prelude.{◌≡◌, ℕ, suc, ◌+◌, ◌*◌, ◌/◌, ◌<◌, ◌≤◌, List, length, slice_index};
ghost use Rattle.compression.specs.Fips as Fips;
ghost use Rattle.compression.specs.Fips.{◌⊞◌};
ghost use Rattle.compression.specs.Rounds.{After, Reached, slide};

pub mod words;

use words::{Words, ch, lower_sigma0, lower_sigma1, maj, upper_sigma0, upper_sigma1};

// The constants of 4.2.2.
const K: [u32; 64] = [
    0x428a2f98, 0x71374491, 0xb5c0fbcf, 0xe9b5dba5, 0x3956c25b, 0x59f111f1, 0x923f82a4, 0xab1c5ed5,
    0xd807aa98, 0x12835b01, 0x243185be, 0x550c7dc3, 0x72be5d74, 0x80deb1fe, 0x9bdc06a7, 0xc19bf174,
    0xe49b69c1, 0xefbe4786, 0x0fc19dc6, 0x240ca1cc, 0x2de92c6f, 0x4a7484aa, 0x5cb0a9dc, 0x76f988da,
    0x983e5152, 0xa831c66d, 0xb00327c8, 0xbf597fc7, 0xc6e00bf3, 0xd5a79147, 0x06ca6351, 0x14292967,
    0x27b70a85, 0x2e1b2138, 0x4d2c6dfc, 0x53380d13, 0x650a7354, 0x766a0abb, 0x81c2c92e, 0x92722c85,
    0xa2bfe8a1, 0xa81a664b, 0xc24b8b70, 0xc76c51a3, 0xd192e819, 0xd6990624, 0xf40e3585, 0x106aa070,
    0x19a4c116, 0x1e376c08, 0x2748774c, 0x34b0bcb5, 0x391c0cb3, 0x4ed8aa4a, 0x5b9cca4f, 0x682e6ff3,
    0x748f82ee, 0x78a5636f, 0x84c87814, 0x8cc70208, 0x90befffa, 0xa4506ceb, 0xbef9a3f7, 0xc67178f2,
];

// The working variables, and the last 16 words of the schedule as far as it is computed.
#[derive(Clone, Copy)]
pub struct Working {
    pub s: Words,
    pub w: [u32; 16],
}

// The intermediate hash value after every whole block of the part.
pub fn blocks(s: Words, part: &[u8]) -> Words
    ensures { result ≡ Fips.hashed s part.now (length part.now / 64) }
{
    let k = &K;
    let (blocks, _) = part.as_chunks::<64>();
    let mut v = s;
    for b in blocks {
        v = compress(v, b, k);
    }
    v
}

fn compress(s: Words, b: &[u8; 64], k: &[u32; 64]) -> Words
    requires { k.now ≡ Fips.K }
    ensures { result ≡ Fips.compress s b.now }
{
    let w = load(b);
    let begun = Working {
        s: first(s, k, w),
        w,
    };
    let v = others(begun, k);
    added(v.s, s)
}

// The words of a block.
fn load(b: &[u8; 64]) -> [u32; 16]
    ensures { result ≡ Fips.words b.now 16 }
{
    // By `array::from_fn` the words are not proved to be the block's.
    let mut w = [0; 16];
    for j in 0..16 {
        w[j] = word(b, j);
    }
    w
}

fn word(b: &[u8; 64], j: usize) -> u32
    requires { j < 16 }
    ensures { result ≡ Fips.word b.now j }
{
    let at = 4 * j;
    // By u32::from_be_bytes a block takes 1.5 % more instructions.
    (u32::from(b[at]) * 256 + u32::from(b[at + 1])) * 65536
        + (u32::from(b[at + 2]) * 256 + u32::from(b[at + 3]))
}

// The first 16 rounds, on the words of the block. Written out, as the others are, so that each constant stands in its instruction.
fn first(s: Words, k: &[u32; 64], w: [u32; 16]) -> Words
    ensures { result ≡ Fips.rounds (λ t. slice_index k.now t) (λ t. slice_index w t) 16 s }
{
    let mut v = s;
    v = pair(v, k, w, 0);
    v = pair(v, k, w, 2);
    v = pair(v, k, w, 4);
    v = pair(v, k, w, 6);
    v = pair(v, k, w, 8);
    v = pair(v, k, w, 10);
    v = pair(v, k, w, 12);
    v = pair(v, k, w, 14);
    v
}

// Two rounds from round t on, each on a word of the block.
fn pair(s: Words, k: &[u32; 64], w: [u32; 16], t: usize) -> Words
    requires { t + 2 ≤ 16 }
    ensures { (b : Words) → After k.now w b t s → After k.now w b (suc (suc t)) result }
{
    let v = round(s, k[t], w[t]);
    round(v, k[t + 1], w[t + 1])
}

// The other 48 rounds. Written out, so that each constant stands in its instruction and the table is never copied.
fn others(v: Working, k: &[u32; 64]) -> Working
    ensures { (b : List ℕ) (s : Words) → Reached k.now b s 0 v → Reached k.now b s 48 result }
{
    let mut u = v;
    u = two(u, k, 16);
    u = two(u, k, 18);
    u = two(u, k, 20);
    u = two(u, k, 22);
    u = two(u, k, 24);
    u = two(u, k, 26);
    u = two(u, k, 28);
    u = two(u, k, 30);
    u = two(u, k, 32);
    u = two(u, k, 34);
    u = two(u, k, 36);
    u = two(u, k, 38);
    u = two(u, k, 40);
    u = two(u, k, 42);
    u = two(u, k, 44);
    u = two(u, k, 46);
    u = two(u, k, 48);
    u = two(u, k, 50);
    u = two(u, k, 52);
    u = two(u, k, 54);
    u = two(u, k, 56);
    u = two(u, k, 58);
    u = two(u, k, 60);
    u = two(u, k, 62);
    u
}

// Two rounds from round t on, each on the next word of the schedule.
fn two(v: Working, k: &[u32; 64], t: usize) -> Working
    requires { t + 2 ≤ 64 }
    ensures { (b : List ℕ) (s : Words) (n : ℕ) → 16 + n ≡ t
        → Reached k.now b s n v → Reached k.now b s (2 + n) result }
{
    let u = turn(v, k, t);
    turn(u, k, t + 1)
}

fn turn(v: Working, k: &[u32; 64], t: usize) -> Working
    requires { t < 64 }
    ensures { (b : List ℕ) (s : Words) (n : ℕ) → 16 + n ≡ t
        → Reached k.now b s n v → Reached k.now b s (suc n) result }
{
    let u = v.w;
    let w = next(u);
    Working {
        s: round(v.s, k[t], w[15]),
        w,
    }
}

// The window of 16 words, a word further on.
fn next(w: [u32; 16]) -> [u32; 16]
    ensures { result ≡ slide w }
{
    [
        w[1],
        w[2],
        w[3],
        w[4],
        w[5],
        w[6],
        w[7],
        w[8],
        w[9],
        w[10],
        w[11],
        w[12],
        w[13],
        w[14],
        w[15],
        schedule_word(w[14], w[9], w[1], w[0]),
    ]
}

// The word of the schedule that follows from those 2, 7, 15 and 16 words before it.
fn schedule_word(w2: u32, w7: u32, w15: u32, w16: u32) -> u32
    ensures { result ≡ Fips.σ₁ w2 ⊞ w7 ⊞ Fips.σ₀ w15 ⊞ w16 }
{
    lower_sigma1(w2)
        .wrapping_add(w7)
        .wrapping_add(lower_sigma0(w15))
        .wrapping_add(w16)
}

fn round(s: Words, k: u32, w: u32) -> Words
    ensures { result ≡ Fips.round s k w }
{
    let t1 = s
        .h
        .wrapping_add(upper_sigma1(s.e))
        .wrapping_add(ch(s.e, s.f, s.g))
        .wrapping_add(k)
        .wrapping_add(w);
    let t2 = upper_sigma0(s.a).wrapping_add(maj(s.a, s.b, s.c));
    Words {
        a: t1.wrapping_add(t2),
        b: s.a,
        c: s.b,
        d: s.c,
        e: s.d.wrapping_add(t1),
        f: s.e,
        g: s.f,
        h: s.g,
    }
}

fn added(s: Words, v: Words) -> Words
    ensures { result ≡ Fips.added s v }
{
    Words {
        a: s.a.wrapping_add(v.a),
        b: s.b.wrapping_add(v.b),
        c: s.c.wrapping_add(v.c),
        d: s.d.wrapping_add(v.d),
        e: s.e.wrapping_add(v.e),
        f: s.f.wrapping_add(v.f),
        g: s.g.wrapping_add(v.g),
        h: s.h.wrapping_add(v.h),
    }
}
