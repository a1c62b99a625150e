//! Authenticates the text of a ciphertext under AES-GCM-SIV in a pass that returns no text: it is decrypted part by part in a
//! buffer.

ghost use Rattle.std.specs.Prelude.{◌≡◌, ◌+◌, ◌<◌, ◌≤◌, ◌^◌, length};
ghost use Rattle.aead.specs.Code.Masks.{TakesText};

use crate::authenticator::Authenticator;
use crate::hashes::TagHash;
use crate::step::{MaskWith, Order, step};

// The length of the buffer in bytes. It is on the stack with the planes and the tables that serve all parts, and the header for C says
// how much stack a call takes at most.
pub(crate) const PART: usize = 1024;

// Authenticates the text of a part of a ciphertext.
fn take_part<S: MaskWith<H>, H: TagHash>(
    mask: &mut S,
    authenticator: &mut Authenticator<H>,
    part: &[u8],
)
    requires small { length part.now ≤ 1024 }
    requires room { authenticator.old.length + length part.now < 2 ^ 64 }
    ensures takes { TakesText S.made H.held mask.old mask.new authenticator.old authenticator.new part.now }
    ensures length { authenticator.new.length ≡ authenticator.old.length + length part.now }
{
    let mut buf = [0; PART];
    let text = &mut buf[..part.len()];
    text.copy_from_slice(part);
    step(Order::MaskFirst, mask, authenticator, text);
}

// Authenticates the text of a piece of a ciphertext.
pub(crate) fn take_text<S: MaskWith<H>, H: TagHash>(
    mask: &mut S,
    authenticator: &mut Authenticator<H>,
    piece: &[u8],
)
    requires { authenticator.old.length + length piece.now < 2 ^ 64 }
    ensures takes { TakesText S.made H.held mask.old mask.new authenticator.old authenticator.new piece.now }
    ensures length { authenticator.new.length ≡ authenticator.old.length + length piece.now }
{
    let mut done = 0;
    while done < piece.len() {
        let next = (piece.len() - done).min(PART);
        take_part(mask, authenticator, &piece[done..done + next]);
        done += next;
    }
}
