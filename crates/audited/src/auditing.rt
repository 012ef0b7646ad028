// The audit with an answer of one word, the list of lengths lent as bytes.
ghost use Rattle.audited.specs.Audited.{Audited};

use crate::lengths::Lengths;
use packed::answers::verdict_code;

// `audit::audit` of the lengths that the bytes give: what it answers in one word.
#[tactic(auto, using(crate::proofs::Listing::same_audit))]
pub fn audit_packed(device: &[u8], auditor: &[u8], logs: &[u8], bytes: &[u8], seal: &[u8]) -> u64
    ensures { Audited
        device.now auditor.now logs.now bytes.now seal.now result }
{
    let lengths = Lengths::of(bytes);
    let verdict = audit::audit(device, auditor, logs, lengths.as_slice(), seal);
    verdict_code(verdict)
}
