// Two stores with one chunk and different ids: each message as the format has it, the id first, and its tag; and what the sealer makes of it,
// the tags that it writes and the key that it holds.
ghost use Rattle.std.specs.Prelude.{◌+◌, ◌≤◌};

use crate::{line, tag};
use std::io;
use std::io::Write;

// The one chunk of both stores, the bytes 20 to 3f: the key of item 0.
const CHUNK: [u8; 32] = *b" !\"#$%&'()*+,-./0123456789:;<=>?";

// One phase, one chunk, two keys. An entry of phase 1 with nine bytes of data, the step to the second key, and a filler.
pub fn device(out: &mut impl Write) -> io::Result<()> {
    by_hand(
        out,
        "device",
        b"device 7\x02\x01\0\0\0\0\x09\0\0\0\0\0\0\0\0\0\0\x0007:00 164",
        b"device 7\x04\x01\0\0\0\x02\0\0\0",
        b"device 7\x03\0\0\0\0\x01\0\0\0",
    )?;
    sealed(
        out,
        "device",
        *b"\x01device 7\x01\x01\0\0\0\x02\0\0\0 !\"#$%&'()*+,-./0123456789:;<=>?",
    )
}

// The same under another id.
pub fn standby(out: &mut impl Write) -> io::Result<()> {
    by_hand(
        out,
        "standby",
        b"device 8\x02\x01\0\0\0\0\x09\0\0\0\0\0\0\0\0\0\0\x0007:00 164",
        b"device 8\x04\x01\0\0\0\x02\0\0\0",
        b"device 8\x03\0\0\0\0\x01\0\0\0",
    )?;
    sealed(
        out,
        "standby",
        *b"\x01device 8\x01\x01\0\0\0\x02\0\0\0 !\"#$%&'()*+,-./0123456789:;<=>?",
    )
}

fn by_hand(
    out: &mut impl Write,
    owner: &str,
    entry: &[u8],
    ratchet: &[u8],
    filler: &[u8],
) -> io::Result<()> {
    let chunk = CHUNK;
    write!(out, "{owner}")?;
    tag(out, "-entry", &chunk, entry, 32)?;
    write!(out, "{owner}")?;
    tag(out, "-next-key", &chunk, ratchet, 32)?;
    let key = hmac::hmac(&chunk, ratchet, 32).unwrap_or([0; 32]);
    write!(out, "{owner}")?;
    tag(out, "-filler", &key, filler, 32)
}

fn sealed(out: &mut impl Write, owner: &str, unused: [u8; 50]) -> io::Result<()> {
    let mut store = unused;
    let mut logs = [0; 8192];
    let mut seal = [0; 91];
    let lengths: [u32; 1] = [0];
    let opened = sealer::open(&store, &logs, &lengths, &seal, 0);
    let first = opened.state;
    let appended = sealer::append(first, &mut store, &mut logs, &mut seal, 1, b"07:00 164");
    let second = appended.state;
    sealer::close(second, &store, &logs, &mut seal);
    let key = second.key;
    made(out, owner, "-entry-sealed", tag_at(&seal, 18))?;
    made(out, owner, "-next-key-held", key)?;
    made(out, owner, "-filler-sealed", tag_at(&seal, 59))
}

fn made(out: &mut impl Write, owner: &str, name: &str, bytes: [u8; 32]) -> io::Result<()> {
    write!(out, "{owner}")?;
    line(out, name, 0, bytes)
}

fn tag_at(seal: &[u8; 91], at: usize) -> [u8; 32]
    requires { at + 32 ≤ 91 }
{
    let mut bytes = [0; 32];
    bytes.copy_from_slice(&seal[at..at + 32]);
    bytes
}
