//! The engine that seals a stream in one reading, under ChaCha20-Poly1305 (RFC 8439, 2.8) and AES-GCM (SP 800-38D, 7.1).

ghost use Rattle.std.specs.Prelude.{◌≡◌, ◌↔◌, ◌<◌, ◌≤◌, ◌∷◌, [], length, true};
ghost use Rattle.aead.specs.Refusals.{DueToBoth, late_in_one_reading, UntouchedUnless};
ghost use Rattle.aead.specs.Suites.{construction_of, is_one_pass, aad_limit};
ghost use Rattle.aead.specs.Sealing.{Setting};
ghost use Rattle.aead.specs.Ciphers.{setting};
ghost use Rattle.aead.specs.AnyCiphers.{one_pass_keyed};
ghost use Rattle.aead.specs.PassStates.{HoldsNumbers};
ghost use Rattle.aead.specs.Code.MessageKeys.{AreKeysOf};
ghost use Rattle.aead.specs.SealStream.{SealsStream, IfTextKnown};

use crate::aead::Aead;
use crate::any::{AnyOnePass, gcm_keys};
use crate::engine::passes::pass_all;
use crate::engine::stage::Masking;
use crate::pieces::keys::{LentMul, MessageKeys};
use crate::pieces::pass_state::PassState;
use crate::step::Order;
use octets::{Fault, Intake, Nonce, Outlet, give_all};

// Seals a stream in one reading, from the keys of a message and the initial state of its pass.
fn seal_over<I: Intake, O: Outlet>(
    keys: &MessageKeys,
    state: &PassState,
    text: &mut I,
    out: &mut O,
) -> Result<(), Fault>
    requires { state.now.length ≡ 0 }
    ensures blame { DueToBoth (Fault.TextTooLong ∷ []) (I.failures text.old) (I.failures text.new)
        (O.failures out.old) (O.failures out.new) result }
    ensures seals { (s : Setting) → AreKeysOf keys.now s → HoldsNumbers state.now s []
        → is_one_pass (construction_of s.suite) ≡ true → IfTextKnown (I.left text.old) (O.taken out.old) (O.taken out.new)
        (λ x given. SealsStream s x given (I.failures text.old) (I.failures text.new) (O.failures out.old)
        (O.failures out.new) result) }
{
    let mut sealing = Masking {
        keys,
        state: *state,
        order: Order::MaskFirst,
        tag: [0; 16],
    };
    match pass_all(text, &mut sealing, keys.text_limit(), out) {
        Ok(Some(_)) => match give_all(out, keys.tag(&sealing.state).bytes()) {
            Ok(()) => Ok(()),
            Err(_) => Err(Fault::Write),
        },
        Ok(None) => Err(Fault::TextTooLong),
        Err(fault) => Err(fault),
    }
}

/// Seals a stream in one reading: each piece is encrypted and given before the next one is taken, and the
/// tag is given last. Does not allocate, and holds a buffer of a fixed size.
///
/// Faults: `AadTooLong` before any reading, which leaves the outlet as it was; `TextTooLong` once the text is
/// longer than the suite's limit, `Read` if the reading failed, `Write` if the outlet did. After these three
/// the outlet may have taken a beginning of ciphertext and tag, which must be thrown away.
///
/// The nonce must never be used twice under one key: a repeat gives away the XOR of the two texts, and enough to
/// forge messages.
pub fn seal_stream<I: Intake, O: Outlet>(
    cipher: &AnyOnePass,
    nonce: &Nonce,
    aad: &[u8],
    text: &mut I,
    out: &mut O,
) -> Result<(), Fault>
    ensures aad { (result ≡ Err Fault.AadTooLong)
        ↔ (aad_limit (one_pass_keyed cipher.now).suite < length aad.now) }
    ensures blame { DueToBoth (Fault.AadTooLong ∷ Fault.TextTooLong ∷ []) (I.failures text.old)
        (I.failures text.new) (O.failures out.old) (O.failures out.new) result }
    ensures seals { IfTextKnown (I.left text.old) (O.taken out.old) (O.taken out.new)
        (λ x given. SealsStream (setting (one_pass_keyed cipher.now) nonce.now aad.now) x given
        (I.failures text.old) (I.failures text.new) (O.failures out.old) (O.failures out.new) result) }
    // Each suite of such a cipher is sealed in one reading.
    ensures one_pass { is_one_pass (construction_of (one_pass_keyed cipher.now).suite) ≡ true }
    // After any other fault the outlet is as it was, also if its bytes are not known.
    ensures untouched { UntouchedUnless late_in_one_reading out.old out.new result }
{
    cipher.suite().check_aad(aad)?;
    let state = cipher.initial_state(nonce, aad);
    match cipher {
        AnyOnePass::ChaCha(_) => seal_over(&cipher.keys(nonce), &state, text, out),
        AnyOnePass::Gcm(cipher) => {
            let multiplier = cipher.wide_multiplier();
            let keys = gcm_keys(cipher, nonce, LentMul::Wide(&multiplier));
            seal_over(&keys, &state, text, out)
        }
    }
}
