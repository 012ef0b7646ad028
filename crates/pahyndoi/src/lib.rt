// What other languages call: built as a static library, declared in include/pahyndoi.h.
#![tactic(auto)]

ghost use Rattle.pahyndoi.specs.Hash.{Hashed, Tagged};
ghost use Rattle.packed.specs.Surface.{Opened, Appended, Closed, Restarted};
ghost use Rattle.audited.specs.Audited.{Audited};
ghost use Rattle.audited.specs.LookedUp.{LookedUp, Located};
ghost use Rattle.packed.specs.Plans.{RatchetPlanned};

use audited::auditing::audit_packed;
use audited::looking::{data_at_packed, item_at_packed};
use packed::calls::{append_packed, close_packed, open_packed, restart_packed};
use packed::plans::least_ratchet_packed;
use scheme::State;

// The digest of the message and 0, or 32 zeros and refusal 1 where the message is too long.
#[unsafe(no_mangle)]
pub extern "C" fn pahyndoi_sha256(message: &[u8], digest: &mut [u8; 32]) -> u32
    ensures { Hashed message.now result digest.new }
{
    match sha256::sha256(message) {
        Ok(bytes) => {
            *digest = bytes;
            0
        }
        Err(refusal) => {
            *digest = [0; 32];
            u32::from(refusal)
        }
    }
}

// The tag of the message under the key, of as many bytes as are wanted with zeros behind them, and 0; or 32 zeros and refusal 1 where key or
// message is too long, else 26 where the length wanted is outside 16 to 32.
#[unsafe(no_mangle)]
pub extern "C" fn pahyndoi_hmac_sha256(
    key: &[u8],
    message: &[u8],
    wanted: usize,
    tag: &mut [u8; 32],
) -> u32
    ensures { Tagged key.now message.now wanted result tag.new }
{
    // Written out as the hash's is: C calls both, and their refusals are of two types.
    match hmac::hmac(key, message, wanted) {
        Ok(bytes) => {
            *tag = bytes;
            0
        }
        Err(refusal) => {
            *tag = [0; 32];
            u32::from(refusal)
        }
    }
}

// Opens a store into the state, whatever the state was. A refused call leaves a state of zeros.
#[unsafe(no_mangle)]
pub extern "C" fn pahyndoi_open(
    state: &mut State,
    store: &[u8],
    logs: &[u8],
    lengths: &[u32],
    seal: &[u8],
    seal_length: u64,
) -> u64
    ensures { Opened store.now logs.now lengths.now seal.now seal_length
        (record { code = result; state = state.new }) }
{
    let done = open_packed(store, logs, lengths, seal, seal_length);
    *state = done.state;
    done.code
}

// Seals the bytes into their phase's log and steps the state on. A refused call alters nothing.
#[unsafe(no_mangle)]
pub extern "C" fn pahyndoi_append(
    state: &mut State,
    store: &mut [u8],
    logs: &mut [u8],
    seal: &mut [u8],
    phase: u8,
    bytes: &[u8],
) -> u64
    ensures { Appended
        state.old store.old logs.old seal.old phase bytes.now
        (record { code = result; state = state.new }) store.new logs.new seal.new }
{
    let s = *state;
    let done = append_packed(s, store, logs, seal, phase, bytes);
    *state = done.state;
    done.code
}

// Fills up a half-used chunk and steps the state on. A refused call alters nothing.
#[unsafe(no_mangle)]
pub extern "C" fn pahyndoi_close(
    state: &mut State,
    store: &[u8],
    logs: &[u8],
    seal: &mut [u8],
) -> u64
    ensures { Closed state.old store.now logs.now seal.old
        (record { code = result; state = state.new }) seal.new }
{
    let s = *state;
    let done = close_packed(s, store, logs, seal);
    *state = done.state;
    done.code
}

// Seals a restart item, which says that the chunk before the state's was cut after so many items, and steps the state on. A refused call alters
// nothing.
#[unsafe(no_mangle)]
pub extern "C" fn pahyndoi_restart(
    state: &mut State,
    store: &mut [u8],
    logs: &[u8],
    seal: &mut [u8],
    number: u32,
) -> u64
    ensures { Restarted state.old store.old logs.now seal.old number
        (record { code = result; state = state.new }) store.new seal.new }
{
    let s = *state;
    let done = restart_packed(s, store, logs, seal, number);
    *state = done.state;
    done.code
}

// Audits a device's store, logs and seal against the auditor's store, the lengths lent as 4 bytes each. Nothing is written.
#[unsafe(no_mangle)]
pub extern "C" fn pahyndoi_audit(
    device: &[u8],
    auditor: &[u8],
    logs: &[u8],
    lengths: &[u8],
    seal: &[u8],
) -> u64
    ensures { Audited device.now auditor.now logs.now lengths.now
        seal.now result }
{
    audit_packed(device, auditor, logs, lengths, seal)
}

// Which item sealed the byte at the offset of the phase's log, of what is lent as to the audit: the refusal, the audit's or then 24, times
// 2 to the 32 plus the number. Nothing is written.
#[unsafe(no_mangle)]
pub extern "C" fn pahyndoi_item_at(
    device: &[u8],
    auditor: &[u8],
    logs: &[u8],
    lengths: &[u8],
    seal: &[u8],
    phase: u8,
    offset: u32,
) -> u64
    ensures { LookedUp device.now auditor.now logs.now lengths.now
        seal.now phase offset result }
{
    item_at_packed(device, auditor, logs, lengths, seal, phase, offset)
}

// Where that item's data begin in the log memory, times 2 to the 32, plus how many they are; 0 where the lookup is refused. Nothing is written.
#[unsafe(no_mangle)]
pub extern "C" fn pahyndoi_data_at(
    device: &[u8],
    auditor: &[u8],
    logs: &[u8],
    lengths: &[u8],
    seal: &[u8],
    phase: u8,
    offset: u32,
) -> u64
    ensures { Located device.now auditor.now logs.now lengths.now
        seal.now phase offset result }
{
    data_at_packed(device, auditor, logs, lengths, seal, phase, offset)
}

// The least ratchet from 1 to 256 with which so many chunks last for the counts of entries between closes, 0 where none does; 25 times 2 to
// the 32 where the plan is refused. Nothing is written.
#[unsafe(no_mangle)]
pub extern "C" fn pahyndoi_least_ratchet(counts: &[u32], chunks: u32) -> u64
    ensures { RatchetPlanned counts.now chunks result }
{
    least_ratchet_packed(counts, chunks)
}
