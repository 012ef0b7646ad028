// HMAC-SHA-256 (RFC 2104), of a wanted length: a keyed state that takes a message part after part, and a call that is handed key and message
// whole.
#![tactic(auto)]

ghost use Rattle.std.specs.Prelude.{◌≡◌};
ghost use Rattle.hmac.specs.Call.{refusal_of, tag_under};

pub mod keyed;

use keyed::tag;
use sha256::LENGTH_LIMIT;

// Why a call is refused: a message or a key is too long, or the length wanted is outside 16 to 32.
#[derive(Clone, Copy, Debug, PartialEq, Eq)]
pub enum TagError {
    TooLong,
    BadTagLength,
}

// The refusal's number.
impl From<TagError> for u32 {
    ghost from_gives = { λ e n. n ≡ refusal_of e };

    fn from(e: TagError) -> u32 {
        match e {
            TagError::TooLong => 1,
            TagError::BadTagLength => 26,
        }
    }
}

// The shortest and the longest tag, in bytes.
pub const SHORTEST_TAG: usize = 16;

pub const LONGEST_TAG: usize = 32;

// The tag of the message under the key, of as many bytes as are wanted, or the refusal of a message or a key that is too long, or then of
// the length wanted.
pub fn hmac(key: &[u8], message: &[u8], wanted: usize) -> Result<[u8; 32], TagError>
    ensures { result ≡ tag_under key.now message.now wanted }
{
    if LENGTH_LIMIT < key.len() {
        return Err(TagError::TooLong); // 1, by the key
    }
    if LENGTH_LIMIT < message.len() {
        return Err(TagError::TooLong); // 1, by the message
    }
    if wanted < SHORTEST_TAG {
        return Err(TagError::BadTagLength); // 26, too few
    }
    if LONGEST_TAG < wanted {
        return Err(TagError::BadTagLength); // 26, too many
    }
    Ok(tag(key, message, wanted))
}
