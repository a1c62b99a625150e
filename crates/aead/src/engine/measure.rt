//! The first of the three readings of the stream opener, which measures the sealing: its length and its last 16 bytes.

ghost use Rattle.std.specs.Prelude.{◌≡◌, ◌++◌, ◌<◌, ◌≤◌, ◌^◌, ⊤, drop, length, replicate};
ghost use Rattle.octets.specs.Bytes.{IsBlock};

use crate::engine::passes::{Discard, pass_body};
use crate::engine::stage::Stage;
use octets::{Fault, Intake, Tag};

// The length of a reading and its last 16 bytes.
#[derive(Drop)]
pub(crate) struct Measured {
    pub(crate) length: u64,
    pub(crate) tag: Tag,
    ghost low: { 16 ≤ length },
    ghost tag_is: { IsBlock tag },
}

// Updates `last` to the last 16 bytes of the reading after a piece.
fn slide(last: &mut [u8; 16], piece: &[u8])
    ensures { last.new ≡ drop (length piece.now) (last.old ++ piece.now) }
{
    let n = piece.len();
    if n >= 16 {
        last.copy_from_slice(&piece[n - 16..]);
    } else {
        last.rotate_left(n);
        last[16 - n..].copy_from_slice(piece);
    }
}

// The last 16 bytes of the pieces so far, after zeros while there are fewer.
#[derive(Drop)]
struct Last {
    bytes: [u8; 16],
}

// The pieces stay as they are, and may be those of any message.
impl Stage for Last {
    ghost Message = { ⊤ };

    ghost mask = { λ _ _. 0 };

    ghost holds = { λ _ last fed. last.bytes ≡ drop (length fed) (replicate 16 0 ++ fed) };

    ghost room = { λ _. 2 ^ 64 };

    fn take_in(&mut self, piece: &mut [u8]) {
        slide(&mut self.bytes, piece);
    }
}

impl Measured {
    ghost use Rattle.aead.specs.Code.Measures.{Measures};

    // Measures a reading by taking it to its end. Faults: `TextTooLong` as soon as more than `limit` and 16 bytes were taken,
    // and no byte is taken after that; `TooShort` if there are fewer than 16; `Read` if the reading failed.
    pub(crate) fn of<I: Intake>(intake: &mut I, limit: u64) -> Result<Measured, Fault>
        requires { limit < 2 ^ 39 }
        ensures { Measures limit (I.left intake.old) (I.left intake.new) (I.failures intake.old)
            (I.failures intake.new) result }
    {
        let mut last = Last { bytes: [0; 16] };
        let length = match pass_body(intake, &mut last, limit + 17, &mut Discard) {
            Ok(length) => length,
            Err(_) => return Err(Fault::Read),
        };
        if length > limit + 16 {
            return Err(Fault::TextTooLong);
        }
        if length < 16 {
            return Err(Fault::TooShort);
        }
        Ok(Measured {
            length,
            tag: Tag::new(last.bytes),
        })
    }
}
