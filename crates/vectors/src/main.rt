// Runs the published examples through the public calls and writes one line each: name, refusal's number, bytes in hexadecimal.
// The stored output is compared with it. Sources: NIST's examples for FIPS 180-4 with SHA-256 (one block, two blocks and
// the additional ones within the limit), RFC 4231 for HMAC-SHA-256 (all seven cases, case 5 truncated to 128 bits, and case 2 with tags of
// other lengths), for the lengths around a block's end the digests that Python's hashlib (OpenSSL) gave for the bytes 0, 1, 2, .., and for
// the messages of two small stores what Python's hmac gave for docs/FORMAT.md, 3 and 5.
#![tactic(auto)]

ghost use Rattle.std.specs.Prelude.{◌≡◌, length};

mod messages;

use sha256::state::Sha256;
use std::io;
use std::io::Write;

fn main(rt: HostRuntime) -> io::Result<()> {
    let mut out = rt.stdout();
    nist(&mut out)?;
    lengths(&mut out)?;
    rfc4231(&mut out)?;
    tag_lengths(&mut out)?;
    messages::device(&mut out)?;
    messages::standby(&mut out)
}

fn nist(out: &mut impl Write) -> io::Result<()> {
    hash(out, "abc", b"abc")?;
    hash(
        out,
        "two-blocks",
        b"abcdbcdecdefdefgefghfghighijhijkijkljklmklmnlmnomnopnopq",
    )?;
    hash(out, "byte-bd", &[0xbd])?;
    hash(out, "four-bytes", &[0xc9, 0x8c, 0x8e, 0x55])?;
    hash(out, "zeros-55", &[0; 55])?;
    hash(out, "zeros-56", &[0; 56])?;
    hash(out, "zeros-57", &[0; 57])?;
    hash(out, "zeros-64", &[0; 64])?;
    hash(out, "zeros-1000", &[0; 1000])?;
    hash(out, "A-1000", &[0x41; 1000])?;
    hash(out, "U-1005", &[0x55; 1005])?;
    million(out, "million-a", [b'a'; 1000])?;
    million(out, "million-zeros", [0; 1000])
}

// A thousand bytes a thousand times, part after part: no proof carries an array of a million.
fn million(out: &mut impl Write, name: &str, part: [u8; 1000]) -> io::Result<()> {
    let mut state = Sha256::new();
    for _ in 0..1000 {
        state = state.update(&part);
    }
    line(out, name, 0, state.finish())
}

// The lengths at which padding changes its form, on the bytes 0, 1, 2, ..
fn lengths(out: &mut impl Write) -> io::Result<()> {
    front(out, "length-0", 0)?;
    front(out, "length-55", 55)?;
    front(out, "length-56", 56)?;
    front(out, "length-63", 63)?;
    front(out, "length-64", 64)?;
    front(out, "length-65", 65)?;
    front(out, "length-119", 119)?;
    front(out, "length-120", 120)?;
    front(out, "length-128", 128)
}

fn front(out: &mut impl Write, name: &str, n: usize) -> io::Result<()> {
    let bytes = counting();
    if n <= 128 {
        hash(out, name, &bytes[..n])?;
    }
    Ok(())
}

fn rfc4231(out: &mut impl Write) -> io::Result<()> {
    tag(out, "case-1", &[0x0b; 20], b"Hi There", 32)?;
    case2(out, "case-2", 32)?;
    tag(out, "case-3", &[0xaa; 20], &[0xdd; 50], 32)?;
    case4(out)?;
    tag(out, "case-5", &[0x0c; 20], b"Test With Truncation", 16)?;
    tag(
        out,
        "case-6",
        &[0xaa; 131],
        b"Test Using Larger Than Block-Size Key - Hash Key First",
        32,
    )?;
    tag(
        out,
        "case-7",
        &[0xaa; 131],
        b"This is a test using a larger than block-size key and a larger than block-size data. The key needs to be hashed before being used by the HMAC algorithm.",
        32,
    )
}

fn case4(out: &mut impl Write) -> io::Result<()> {
    let bytes = counting();
    tag(out, "case-4", &bytes[1..26], &[0xcd; 50], 32)
}

// Tags of case 2 that are cut, and lengths on both sides of 16 and of 32.
fn tag_lengths(out: &mut impl Write) -> io::Result<()> {
    case2(out, "wanted-0", 0)?;
    case2(out, "wanted-15", 15)?;
    case2(out, "wanted-16", 16)?;
    case2(out, "wanted-17", 17)?;
    case2(out, "wanted-31", 31)?;
    case2(out, "wanted-32", 32)?;
    case2(out, "wanted-33", 33)?;
    case2(out, "wanted-48", 48)
}

fn case2(out: &mut impl Write, name: &str, wanted: usize) -> io::Result<()> {
    tag(out, name, b"Jefe", b"what do ya want for nothing?", wanted)
}

fn counting() -> [u8; 128]
    ensures { length result ≡ 128 }
{
    std::array::from_fn(|i| (i % 256) as u8)
}

fn hash(out: &mut impl Write, name: &str, message: &[u8]) -> io::Result<()> {
    answer(out, name, sha256::sha256(message))
}

fn tag(
    out: &mut impl Write,
    name: &str,
    key: &[u8],
    message: &[u8],
    wanted: usize,
) -> io::Result<()> {
    answer(out, name, hmac::hmac(key, message, wanted))
}

// The line of a call, whatever its refusals are.
fn answer<E: Into<u32>>(
    out: &mut impl Write,
    name: &str,
    bytes: Result<[u8; 32], E>,
) -> io::Result<()> {
    match bytes {
        Ok(bytes) => line(out, name, 0, bytes),
        Err(refusal) => line(out, name, refusal.into(), [0; 32]),
    }
}

// The name, the refusal's number, 0 with none, and the bytes, zeros where the call is refused.
fn line(out: &mut impl Write, name: &str, refusal: u32, bytes: [u8; 32]) -> io::Result<()> {
    write!(out, "{name} {refusal} ")?;
    for b in bytes {
        write!(out, "{b:02x}")?;
    }
    writeln!(out)
}
