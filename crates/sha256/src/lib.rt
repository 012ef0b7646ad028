// SHA-256 (FIPS 180-4): a hash state that takes a message part after part, and a call that is handed it whole.
#![tactic(auto)]

ghost use Rattle.std.specs.Prelude.{◌≡◌};
ghost use Rattle.sha256.specs.Call.{digest_of, refusal_of};

pub mod state;

use state::Sha256;

// Why a call is refused: the message is too long.
#[derive(Clone, Copy, Debug, PartialEq, Eq)]
pub struct TooLong;

// The refusal's number.
impl From<TooLong> for u32 {
    ghost from_gives = { λ e n. n ≡ refusal_of e };

    fn from(_e: TooLong) -> u32 {
        1
    }
}

// The longest message or key that is hashed, in bytes.
pub const LENGTH_LIMIT: usize = 1048576;

// The digest of the message, or the refusal of one that is too long.
pub fn sha256(message: &[u8]) -> Result<[u8; 32], TooLong>
    ensures { result ≡ digest_of message.now }
{
    if LENGTH_LIMIT < message.len() {
        return Err(TooLong);
    }
    Ok(Sha256::new().finish_part(message))
}
