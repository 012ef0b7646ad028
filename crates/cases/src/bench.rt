// What the calls work on: the state, and memories of which a part is lent to them.
use crate::memory::Memory;
use crate::numbers::{Field, Operation, Part};
use crate::record::{MAX_BYTES, MAX_COUNTS, MAX_DATA, Record};
use crate::report::{Answer, Digest};
use scheme::{ChunkNumber, RatchetOffset, Sealed, State};
use std::io;
use std::io::Write;

const LOG_FILL: u8 = 0xee;

const SEAL_FILL: u8 = 0xdd;

// The most log lengths that a record lends.
const MAX_LENGTHS: usize = 9;

#[derive(Drop)]
pub struct Bench {
    state: State,
    store: Memory<40000>,
    logs: Memory<131073>,
    seal: Memory<16384>,
    auditor: Memory<40000>,
}

impl Bench {
    // A state of zeros, and nothing lent.
    pub fn new() -> Self {
        Bench {
            state: State::default(),
            store: Memory::new(),
            logs: Memory::new(),
            seal: Memory::new(),
            auditor: Memory::new(),
        }
    }

    // Does what the record says. A record whose first byte names no operation does nothing.
    pub fn step(&mut self, out: &mut impl Write, record: Record) -> io::Result<()> {
        let Ok(operation) = Operation::try_from(record.byte(0)) else {
            return Ok(());
        };
        match operation {
            Operation::Label => label(out, record)?,
            Operation::Prepare => self.prepare(record),
            Operation::Open => self.open(out, record)?,
            Operation::Append => self.append(out, record)?,
            Operation::Close => self.close(out)?,
            Operation::SetState => self.set_state(record),
            Operation::SetBytes => self.set_bytes(record),
            Operation::SetLength => self.set_length(record),
            Operation::Keep => self.keep(),
            Operation::Audit => self.audit(out, record)?,
            Operation::Lookup => self.lookup(out, record)?,
            Operation::Plan => plan(out, record)?,
            Operation::Restart => self.restart(out, record)?,
        }
        Ok(())
    }

    // A state of zeros, the memories of the record's lengths, filled, and nothing that the auditor keeps.
    fn prepare(&mut self, record: Record) {
        self.state = State::default();
        self.store.resize(record.size(12));
        for (i, byte) in self.store.lent_mut().iter_mut().enumerate() {
            *byte = record.store_byte(i);
        }
        self.logs.resize(record.size(16));
        self.logs.lent_mut().fill(LOG_FILL);
        self.seal.resize(record.size(20));
        self.seal.lent_mut().fill(SEAL_FILL);
        self.auditor.resize(0);
    }

    fn open(&mut self, out: &mut impl Write, record: Record) -> io::Result<()> {
        let lengths = record.listed();
        let sealed = sealer::open(
            self.store.lent(),
            self.logs.lent(),
            &lengths[..record.count(1, MAX_LENGTHS)],
            self.seal.lent(),
            record.seal_length(),
        );
        self.sealed(out, "open", sealed)
    }

    fn append(&mut self, out: &mut impl Write, record: Record) -> io::Result<()> {
        let appended = record.appended();
        let sealed = sealer::append(
            self.state,
            self.store.lent_mut(),
            self.logs.lent_mut(),
            self.seal.lent_mut(),
            record.byte(1),
            &appended[..record.size(4).min(MAX_DATA)],
        );
        self.sealed(out, "append", sealed)
    }

    fn close(&mut self, out: &mut impl Write) -> io::Result<()> {
        let sealed = sealer::close(
            self.state,
            self.store.lent(),
            self.logs.lent(),
            self.seal.lent_mut(),
        );
        self.sealed(out, "close", sealed)
    }

    fn restart(&mut self, out: &mut impl Write, record: Record) -> io::Result<()> {
        let sealed = sealer::restart(
            self.state,
            self.store.lent_mut(),
            self.logs.lent(),
            self.seal.lent_mut(),
            record.word(4),
        );
        self.sealed(out, "restart", sealed)
    }

    // The line of a sealer's call; the state is then the one that the call gave.
    fn sealed(&mut self, out: &mut impl Write, name: &str, sealed: Sealed) -> io::Result<()> {
        self.state = sealed.state;
        write!(
            out,
            "{name}{}{}",
            Answer::from(sealed.outcome),
            Digest::of_state(sealed.state)
        )?;
        self.write_material(out)?;
        out.write_all(b"\n")
    }

    fn audit(&self, out: &mut impl Write, record: Record) -> io::Result<()> {
        let lengths = record.listed();
        let verdict = audit::audit(
            self.store.lent(),
            self.auditor.lent(),
            self.logs.lent(),
            &lengths[..record.count(1, MAX_LENGTHS)],
            self.seal.front(record.size(4)),
        );
        write!(out, "audit{}", Answer::from(verdict))?;
        self.write_material(out)?;
        writeln!(out, "{}", Digest::of(self.auditor.lent()))
    }

    // A lookup is lent what an audit is. It says of a byte: the item, where its data stand, and the part of the logs that has them.
    fn lookup(&self, out: &mut impl Write, record: Record) -> io::Result<()> {
        let device = self.store.lent();
        let auditor = self.auditor.lent();
        let logs = self.logs.lent();
        let listed = record.listed();
        let lengths = &listed[..record.count(1, MAX_LENGTHS)];
        let seal = self.seal.front(record.size(4));
        let phase = record.byte(2);
        let offset = record.word(8);
        let found = lookup::item_at(device, auditor, logs, lengths, seal, phase, offset);
        let place = lookup::data_place(device, auditor, logs, lengths, seal, phase, offset);
        let part = lookup::data_at(device, auditor, logs, lengths, seal, phase, offset);
        write!(
            out,
            "lookup{} {} {}{}",
            Answer::from(found),
            place.begin,
            part.len(),
            Digest::of(part)
        )?;
        self.write_material(out)?;
        writeln!(out, "{}", Digest::of(auditor))
    }

    // The digests of what the sealer works on.
    fn write_material(&self, out: &mut impl Write) -> io::Result<()> {
        write!(
            out,
            "{}{}{}",
            Digest::of(self.store.lent()),
            Digest::of(self.logs.lent()),
            Digest::of(self.seal.lent()),
        )
    }

    // The record's value in the field of the state that it names.
    fn set_state(&mut self, record: Record) {
        let Ok(field) = Field::try_from(record.byte(1)) else {
            return;
        };
        match field {
            Field::Chunk => self.state.chunk = ChunkNumber(record.word(4)),
            Field::Offset => self.state.offset = RatchetOffset(record.word(4)),
            Field::SealLength => self.state.seal_length = record.seal_length(),
            Field::LogLength => {
                self.state.lengths[usize::from(record.byte(2) % 8)] = record.word(4);
            }
            Field::Key => self.state.key = [record.byte(2); 32],
        }
    }

    // The record's bytes from its place on in what is lent of the memory that it names, as far as that goes.
    fn set_bytes(&mut self, record: Record) {
        let Ok(part) = Part::try_from(record.byte(1)) else {
            return;
        };
        let lent = self.lent_mut(part);
        let at = record.size(4).min(lent.len());
        let rest = &mut lent[at..];
        let n = record.count(2, MAX_BYTES).min(rest.len());
        rest[..n].copy_from_slice(&record.set_bytes()[..n]);
    }

    fn lent_mut(&mut self, part: Part) -> &mut [u8] {
        match part {
            Part::Store => self.store.lent_mut(),
            Part::Logs => self.logs.lent_mut(),
            Part::Seal => self.seal.lent_mut(),
            Part::Auditor => self.auditor.lent_mut(),
        }
    }

    // The auditor keeps what is lent of the store, and no more is copied.
    fn keep(&mut self) {
        let store = self.store.lent();
        self.auditor.resize(store.len());
        let kept = self.auditor.lent_mut();
        let n = store.len().min(kept.len());
        kept[..n].copy_from_slice(&store[..n]);
    }

    // So much lent of the memory that the record names.
    fn set_length(&mut self, record: Record) {
        let Ok(part) = Part::try_from(record.byte(1)) else {
            return;
        };
        let n = record.size(4);
        match part {
            Part::Store => self.store.resize(n),
            Part::Logs => self.logs.resize(n),
            Part::Seal => self.seal.resize(n),
            Part::Auditor => self.auditor.resize(n),
        }
    }
}

// The record's text as a line.
fn label(out: &mut impl Write, record: Record) -> io::Result<()> {
    out.write_all(record.text())?;
    out.write_all(b"\n")
}

// A plan is lent the record's counts and no memory.
fn plan(out: &mut impl Write, record: Record) -> io::Result<()> {
    let counts = record.counts();
    let ratchet = planning::least_ratchet(&counts[..record.count(1, MAX_COUNTS)], record.word(4));
    writeln!(out, "plan{}", Answer::from(ratchet))
}
