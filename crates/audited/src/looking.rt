// The lookups with an answer of one word, the list of lengths lent as bytes.
ghost use Rattle.audited.specs.LookedUp.{LookedUp, Located};

use crate::lengths::Lengths;
use lookup::{data_place, item_at};
use packed::answers::{code, verdict_code};

// `lookup::item_at` with the lengths that the bytes give: what it answers in one word.
#[tactic(auto, using(crate::proofs::Listing::same_lookup))]
pub fn item_at_packed(
    device: &[u8],
    auditor: &[u8],
    logs: &[u8],
    bytes: &[u8],
    seal: &[u8],
    phase: u8,
    offset: u32,
) -> u64
    ensures { LookedUp device.now auditor.now logs.now bytes.now
        seal.now phase offset result }
{
    let lengths = Lengths::of(bytes);
    let found = item_at(
        device,
        auditor,
        logs,
        lengths.as_slice(),
        seal,
        phase,
        offset,
    );
    verdict_code(found)
}

// Where the part that `lookup::data_at` returns stands, in one word, with the lengths that the bytes give: no part is returned to other
// languages.
pub fn data_at_packed(
    device: &[u8],
    auditor: &[u8],
    logs: &[u8],
    bytes: &[u8],
    seal: &[u8],
    phase: u8,
    offset: u32,
) -> u64
    ensures { Located device.now auditor.now logs.now bytes.now
        seal.now phase offset result }
{
    let lengths = Lengths::of(bytes);
    let place = data_place(
        device,
        auditor,
        logs,
        lengths.as_slice(),
        seal,
        phase,
        offset,
    );
    code(place.begin as u64, place.size as u64)
}
