//! The stages of a pass over a reading: what is done with each piece. Two of them are here, and `measure` has the third.

ghost use Rattle.std.specs.Prelude.{◌≡◌, ◌+◌, ◌<◌, ◌≤◌, ◌++◌, ℕ, List, length};
ghost use Rattle.octets.specs.Masked.{masked};
ghost use Rattle.aead.specs.Sealing.{Setting};
ghost use Rattle.aead.specs.Code.Maskings.{Task, HoldsMasking, HoldsReading, room_under, task_mask};

use crate::pieces::keys::MessageKeys;
use crate::pieces::pass_state::PassState;
use crate::step::Order;
use aes::KnownBlock;

// The stage of a pass, between the reading and the outlet: it takes in each piece, and may mask it before it is given.
pub(crate) trait Stage {
    // The message whose pieces it takes in.
    ghost Message: { Type 0 };

    // The bytes that are XORed into the pieces of a message: zeros, if the pieces stay as they are.
    ghost mask: { Message → ℕ → ℕ };

    // It belongs to a message and has taken in these bytes of its pieces.
    ghost holds: { Message → Self → List ℕ → Type 0 };

    // It can still take in fewer bytes than this, whatever the message.
    ghost room: { Self → ℕ };

    // Takes in the next piece, and XORs the mask into it.
    fn take_in(&mut self, piece: &mut [u8])
        requires { length piece.old < room self.old }
        ensures holds { (m : Message) (fed : List ℕ) → holds m self.old fed
            → holds m self.new (fed ++ piece.old) × (piece.new ≡ masked (mask m) (length fed) piece.old) }
        ensures room { room self.old ≤ room self.new + length piece.old };
}

// The keys of a message and the state of its pass. Each piece is masked in place and authenticated, in this order.
#[derive(Drop)]
pub(crate) struct Masking<'a> {
    pub(crate) keys: &'a MessageKeys<'a>,
    pub(crate) state: PassState,
    pub(crate) order: Order,
    // The tag of the message, or zeros where the mask does not depend on it.
    pub(crate) tag: [u8; 16],
}

// Each piece begins at a block of AES, since only the last one does not fill the buffer: no block is known before it.
impl<'a> Stage for Masking<'a> {
    ghost Message = { Task };

    ghost mask = { task_mask };

    ghost holds = { HoldsMasking };

    ghost room = { λ m. room_under m.keys.now m.state };

    fn take_in(&mut self, piece: &mut [u8]) {
        let mut known = KnownBlock::none();
        self.keys
            .mask(&mut self.state, &mut known, self.order, &self.tag, piece);
    }
}

// The keys of a message and the state of its pass. The pieces are authenticated, and stay as they are.
#[derive(Drop)]
pub(crate) struct Reading<'a> {
    pub(crate) keys: &'a MessageKeys<'a>,
    pub(crate) state: PassState,
}

impl<'a> Stage for Reading<'a> {
    ghost Message = { Setting };

    ghost mask = { λ _ _. 0 };

    ghost holds = { HoldsReading };

    ghost room = { λ r. room_under r.keys.now r.state };

    fn take_in(&mut self, piece: &mut [u8]) {
        self.keys.take(&mut self.state, piece);
    }
}
