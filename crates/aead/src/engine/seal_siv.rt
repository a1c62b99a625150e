//! The engine that seals a stream in two readings, under AES-GCM-SIV (RFC 8452, 4): the tag of the first begins the mask of the
//! second.

ghost use Rattle.std.specs.Prelude.{◌≡◌, ◌↔◌, ◌<◌, ◌≤◌, ◌∷◌, ℕ, List, [], length, IfSome};
ghost use Rattle.aead.specs.Refusals.{DueToBoth, late_in_readings, UntouchedUnless};
ghost use Rattle.aead.specs.Suites.{ByGcmSiv, construction_of, text_limit_by, aad_limit};
ghost use Rattle.aead.specs.Sealing.{Setting, tag_of};
ghost use Rattle.aead.specs.Ciphers.{setting};
ghost use Rattle.aead.specs.PassStates.{HoldsNumbers};
ghost use Rattle.aead.specs.Code.MessageKeys.{construction_by, AreKeysOf};
ghost use Rattle.aead.specs.SealSivStream.{WritesAgain, SealsSivStream, SivBlames, IfBothKnown};

use crate::aead::Aead;
use crate::engine::passes::{Discard, pass_all};
use crate::engine::stage::{Masking, Reading};
use crate::gcm_siv::GcmSiv;
use crate::pieces::keys::{LentMul, MessageKeys};
use crate::pieces::pass_state::PassState;
use crate::pieces::two_pass_state::repeats;
use crate::step::Order;
use gf128::{Keyed128, WideMul};
use octets::{Fault, Intake, Nonce, Outlet, Tag, give_all};

// Encrypts a second reading and gives it, and then gives the tag if the reading repeats the first one.
fn write_again<J: Intake, O: Outlet>(
    keys: &MessageKeys,
    state: &PassState,
    first_length: u64,
    tag: &Tag,
    intake: &mut J,
    outlet: &mut O,
) -> Result<(), Fault>
    requires empty { state.now.length ≡ 0 }
    requires fits { first_length ≤ text_limit_by (construction_by keys.now.cipher) }
    ensures written { (s : Setting) (first : List ℕ) → construction_of s.suite ≡ ByGcmSiv → AreKeysOf keys.now s
        → HoldsNumbers state.now s [] → first_length ≡ length first → tag.now ≡ tag_of s first →
        IfSome (J.left intake.old) (λ b. WritesAgain s first b (O.taken outlet.old) (O.taken outlet.new)
        (J.failures intake.old) (J.failures intake.new) (O.failures outlet.old) (O.failures outlet.new)
        result) }
    ensures blame { DueToBoth (Fault.SourceChanged ∷ []) (J.failures intake.old) (J.failures intake.new)
        (O.failures outlet.old) (O.failures outlet.new) result }
{
    let mut again = Masking {
        keys,
        state: *state,
        order: Order::HashFirst,
        tag: *tag.bytes(),
    };
    match pass_all(intake, &mut again, first_length, outlet) {
        Ok(Some(_)) => {
            if repeats(keys, &again.state, first_length, tag.bytes()) {
                match give_all(outlet, tag.bytes()) {
                    Ok(()) => Ok(()),
                    Err(_) => Err(Fault::Write),
                }
            } else {
                Err(Fault::SourceChanged)
            }
        }
        Ok(None) => Err(Fault::SourceChanged),
        Err(fault) => Err(fault),
    }
}

// Seals a stream in two readings, from the keys of a message and the initial state of both passes.
fn seal_in_two<I: Intake, J: Intake, O: Outlet>(
    keys: &MessageKeys,
    state: &PassState,
    first: &mut I,
    second: &mut J,
    out: &mut O,
) -> Result<(), Fault>
    requires { state.now.length ≡ 0 }
    ensures blame { SivBlames (Fault.TextTooLong ∷ Fault.SourceChanged ∷ [])
        (record { first = I.failures first.old; second = J.failures second.old; outlet = O.failures out.old })
        (record { first = I.failures first.new; second = J.failures second.new; outlet = O.failures out.new })
        result }
    ensures seals { (s : Setting) → construction_of s.suite ≡ ByGcmSiv → AreKeysOf keys.now s
        → HoldsNumbers state.now s []
        → IfBothKnown (I.left first.old) (J.left second.old) (O.taken out.old) (O.taken out.new)
        (λ a b given. SealsSivStream s a b given
        (record { first = I.failures first.old; second = J.failures second.old; outlet = O.failures out.old })
        (record { first = I.failures first.new; second = J.failures second.new; outlet = O.failures out.new })
        result) }
    ensures untouched { UntouchedUnless late_in_readings out.old out.new result }
{
    let mut reading = Reading {
        keys,
        state: *state,
    };
    match pass_all(first, &mut reading, keys.text_limit(), &mut Discard) {
        Ok(Some(first_length)) => {
            let tag = keys.tag(&reading.state);
            write_again(keys, state, first_length, &tag, second, out)
        }
        Ok(None) => Err(Fault::TextTooLong),
        Err(_) => Err(Fault::Read),
    }
}

/// Seals a stream in two readings under AES-GCM-SIV: the first is authenticated, and of the second each
/// piece is encrypted and given before the next one is taken; the tag is given last, once the second
/// reading has shown the length and the tag of the first. Does not allocate, and holds buffers of a
/// fixed size.
///
/// Faults: `AadTooLong` before any reading, `TextTooLong` once the text is longer than the suite's limit;
/// both leave the outlet as it was. `SourceChanged` if the second reading has another length or tag,
/// `Read` if a reading failed, `Write` if the outlet did. After these three the outlet may have taken some
/// bytes, which must be thrown away.
///
/// The nonce must never be used twice under one key: a repeat gives away whether the texts and the associated data
/// were the same, and nothing else.
pub fn seal_siv_stream<I: Intake, J: Intake, O: Outlet>(
    cipher: &GcmSiv,
    nonce: &Nonce,
    aad: &[u8],
    first: &mut I,
    second: &mut J,
    out: &mut O,
) -> Result<(), Fault>
    ensures aad { (result ≡ Err Fault.AadTooLong) ↔ (aad_limit cipher.now.suite < length aad.now) }
    ensures blame { SivBlames (Fault.AadTooLong ∷ Fault.TextTooLong ∷ Fault.SourceChanged ∷ [])
        (record { first = I.failures first.old; second = J.failures second.old; outlet = O.failures out.old })
        (record { first = I.failures first.new; second = J.failures second.new; outlet = O.failures out.new })
        result }
    ensures seals { IfBothKnown (I.left first.old) (J.left second.old) (O.taken out.old) (O.taken out.new)
        (λ a b given. SealsSivStream (setting cipher.now nonce.now aad.now) a b given
        (record { first = I.failures first.old; second = J.failures second.old; outlet = O.failures out.old })
        (record { first = I.failures first.new; second = J.failures second.new; outlet = O.failures out.new })
        result) }
    // Both suites of such a cipher are sealed in two readings.
    ensures by_gcm_siv { construction_of cipher.now.suite ≡ ByGcmSiv }
    // After any other fault the outlet is as it was, also if its bytes are not known.
    ensures untouched { UntouchedUnless late_in_readings out.old out.new result }
{
    cipher.suite().check_aad(aad)?;
    let derived = cipher.derive(nonce);
    let state = derived.initial_state(aad);
    let multiplier = WideMul::of(&derived.multiplier_key);
    let keys = derived.message_keys(nonce, LentMul::Wide(&multiplier));
    seal_in_two(&keys, &state, first, second, out)
}
