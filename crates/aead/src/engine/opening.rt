//! The second and the third reading of the stream opener: a whole reading of a sealing, which is authenticated as it goes.

ghost use Rattle.std.specs.Prelude.{◌≡◌, ◌+◌, ◌≤◌, [], None, true};
ghost use Rattle.aead.specs.Refusals.{DueToReading, DueToBoth};
ghost use Rattle.aead.specs.Suites.{is_one_pass, text_limit_by};
ghost use Rattle.aead.specs.Sealing.{Setting};
ghost use Rattle.aead.specs.PassStates.{HoldsNumbers};
ghost use Rattle.aead.specs.Code.MessageKeys.{construction_by, AreKeysOf};
ghost use Rattle.aead.specs.Code.Findings.{BeginsOpening, PassedWhole};

use crate::engine::measure::Measured;
use crate::engine::passes::{Discard, Finding, finding_of, pass_body};
use crate::engine::stage::{Masking, Reading};
use crate::pieces::keys::{CipherKeys, MessageKeys};
use crate::pieces::pass_state::PassState;
use octets::{Fault, Intake, Outlet};

// Decrypts and authenticates the body of a reading and gives it to the outlet, and then compares what is left with the measured tag
// and the end. `Ok` alone is no valid sealing: the finding says what was found.
pub(crate) fn pass_opening<I: Intake, O: Outlet>(
    keys: &MessageKeys,
    state: &PassState,
    intake: &mut I,
    measured: &Measured,
    outlet: &mut O,
) -> Result<Finding, Fault>
    requires empty { state.now.length ≡ 0 }
    requires high { measured.now.length ≤ text_limit_by (construction_by keys.now.cipher) + 16 }
    ensures passed { (s : Setting) → AreKeysOf keys.now s → HoldsNumbers state.now s [] →
        PassedWhole s measured.now.tag measured.now.length (I.left intake.old) (I.left intake.new)
        (O.taken outlet.old) (O.taken outlet.new) result }
    ensures blame { DueToBoth [] (I.failures intake.old) (I.failures intake.new) (O.failures outlet.old)
        (O.failures outlet.new) result }
{
    let mut opening = Masking {
        keys,
        state: *state,
        order: keys.order_of_opening(),
        tag: *measured.tag.bytes(),
    };
    match pass_body(intake, &mut opening, measured.length - 16, outlet) {
        Ok(n) => finding_of(intake, measured, n, keys.tag(&opening.state)),
        Err(fault) => Err(fault),
    }
}

// Authenticates a whole reading without decrypting it.
fn pass_sealed<I: Intake>(
    keys: &MessageKeys,
    state: &PassState,
    intake: &mut I,
    measured: &Measured,
) -> Result<Finding, Fault>
    requires empty { state.now.length ≡ 0 }
    requires high { measured.now.length ≤ text_limit_by (construction_by keys.now.cipher) + 16 }
    ensures passed { (s : Setting) → is_one_pass (construction_by keys.now.cipher) ≡ true
        → BeginsOpening keys.now state.now s →
        PassedWhole s measured.now.tag measured.now.length (I.left intake.old) (I.left intake.new) None None result }
    ensures blame { DueToReading [] (I.failures intake.old) (I.failures intake.new) result }
{
    let mut reading = Reading {
        keys,
        state: *state,
    };
    match pass_body(intake, &mut reading, measured.length - 16, &mut Discard) {
        Ok(n) => finding_of(intake, measured, n, keys.tag(&reading.state)),
        Err(_) => Err(Fault::Read),
    }
}

// Authenticates a whole reading and gives nothing. It is decrypted only under AES-GCM-SIV, whose tag is over the text.
pub(crate) fn verify_reading<I: Intake>(
    keys: &MessageKeys,
    state: &PassState,
    intake: &mut I,
    measured: &Measured,
) -> Result<Finding, Fault>
    requires empty { state.now.length ≡ 0 }
    requires high { measured.now.length ≤ text_limit_by (construction_by keys.now.cipher) + 16 }
    ensures passed { (s : Setting) → BeginsOpening keys.now state.now s →
        PassedWhole s measured.now.tag measured.now.length (I.left intake.old) (I.left intake.new) None None result }
    ensures blame { DueToReading [] (I.failures intake.old) (I.failures intake.new) result }
{
    match keys.cipher {
        CipherKeys::ChaCha(_) | CipherKeys::Gcm(_) => pass_sealed(keys, state, intake, measured),
        CipherKeys::Siv(_) => match pass_opening(keys, state, intake, measured, &mut Discard) {
            Ok(finding) => Ok(finding),
            Err(_) => Err(Fault::Read),
        },
    }
}
