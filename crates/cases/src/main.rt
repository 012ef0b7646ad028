// Runs a script of calls through the sealer, the audit, the lookups and the plans and writes a line for each call: what it answered, and
// digests of all it may change.
#![tactic(auto)]

ghost use Rattle.std.specs.Prelude.{◌≡◌, ◌≤◌, length, IfOk, OnErr};

mod bench;
mod memory;
mod numbers;
mod record;
mod report;

use bench::Bench;
use record::{RECORD_LENGTH, Record};
use std::io;
use std::io::{Read, Write};

// The most bytes of a script that are read.
const SCRIPT_LIMIT: usize = 262144;

fn main(rt: HostRuntime) -> io::Result<()> {
    let mut script = [0; SCRIPT_LIMIT];
    let n = read_full(&mut rt.stdin(), &mut script)?;
    run(&mut rt.stdout(), &script[..n])
}

// Reads until the memory is full or the input ends, and gives how many bytes it put at the front. After an error what stands there is open.
fn read_full(input: &mut impl Read, memory: &mut [u8]) -> io::Result<usize>
    ensures ok { IfOk result (λ n. n ≤ length memory.new) }
    ensures err { OnErr result (length memory.new ≡ length memory.old) }
{
    let mut done = 0;
    // read_exact refuses an input that ends before the memory is full, and read_to_end takes heap.
    while done < memory.len() {
        let n = input.read(&mut memory[done..])?;
        if n == 0 {
            break;
        }
        done += n;
    }
    Ok(done)
}

// Record after record; a shorter rest at the end is ignored.
fn run(out: &mut impl Write, script: &[u8]) -> io::Result<()> {
    let mut bench = Bench::new();
    let (records, _) = script.as_chunks::<RECORD_LENGTH>();
    for bytes in records {
        bench.step(out, Record(bytes))?;
    }
    Ok(())
}
