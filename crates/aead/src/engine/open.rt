//! The stream opener: measures, verifies and decrypts in three readings, so that no byte is given before a whole reading was
//! authenticated (RFC 8439, 2.8; SP 800-38D, 7.2; RFC 8452, 5).

ghost use Rattle.std.specs.Prelude.{◌≡◌, ◌≢◌, ◌↔◌, ◌+◌, ◌<◌, ◌≤◌, ◌∷◌, [], length, IfSome, IfOk};
ghost use Rattle.aead.specs.Refusals.{DueToReading, DueToBoth, late_in_readings, UntouchedUnless};
ghost use Rattle.aead.specs.Suites.{text_limit_by, aad_limit};
ghost use Rattle.aead.specs.Sealing.{Setting};
ghost use Rattle.aead.specs.Ciphers.{setting};
ghost use Rattle.aead.specs.AnyCiphers.{keyed_of};
ghost use Rattle.aead.specs.Verdict.{IfAllKnown, OpensStream, BlamesRightly, counted};
ghost use Rattle.aead.specs.Code.MessageKeys.{construction_by};
ghost use Rattle.aead.specs.Code.Returns.{MeasureReturns, VerifyReturns, WriteReturns, verify_answer};
ghost use Rattle.aead.specs.Code.Returns.{write_answer};
ghost use Rattle.aead.specs.Code.Findings.{BeginsOpening};

use crate::aead::Aead;
use crate::any::{AnyAead, AnyOnePass, gcm_keys};
use crate::engine::measure::Measured;
use crate::engine::opening::{pass_opening, verify_reading};
use crate::engine::passes::Finding;
use crate::pieces::keys::{LentMul, MessageKeys};
use crate::pieces::pass_state::PassState;
use gf128::{Keyed128, WideMul};
use octets::{Fault, Intake, Nonce, Outlet};

// The first step: measures the length and the tag.
fn measure_step<I: Intake>(keys: &MessageKeys, intake: &mut I) -> Result<Measured, Fault>
    ensures high { IfOk result (λ m. m.length ≤ text_limit_by (construction_by keys.now.cipher) + 16) }
    ensures blame { DueToReading (Fault.TextTooLong ∷ Fault.TooShort ∷ []) (I.failures intake.old)
        (I.failures intake.new) result }
    ensures known { IfSome (I.left intake.old)
        (λ m. MeasureReturns (text_limit_by (construction_by keys.now.cipher)) m (I.failures intake.old)
        (I.failures intake.new) result) }
{
    Measured::of(intake, keys.text_limit())
}

// Returns the result for the finding of the verify reading.
fn answer_verify(finding: Finding) -> Result<(), Fault>
    ensures { result ≡ verify_answer finding }
{
    match finding {
        Finding::Sealed => Ok(()),
        Finding::Unsealed => Err(Fault::TagMismatch),
        Finding::Differs => Err(Fault::SourceChanged),
    }
}

// Returns the result for the finding of the write reading.
fn answer_write(finding: Finding) -> Result<(), Fault>
    ensures { result ≡ write_answer finding }
{
    match finding {
        Finding::Sealed => Ok(()),
        Finding::Unsealed | Finding::Differs => Err(Fault::SourceChanged),
    }
}

// The second step: succeeds only if the reading is a valid sealing with the measured length and tag.
fn verify_step<I: Intake>(
    keys: &MessageKeys,
    state: &PassState,
    measured: &Measured,
    intake: &mut I,
) -> Result<(), Fault>
    requires empty { state.now.length ≡ 0 }
    requires high { measured.now.length ≤ text_limit_by (construction_by keys.now.cipher) + 16 }
    ensures blame { DueToReading (Fault.TagMismatch ∷ Fault.SourceChanged ∷ []) (I.failures intake.old)
        (I.failures intake.new) result }
    ensures known { (s : Setting) → BeginsOpening keys.now state.now s → IfSome (I.left intake.old)
        (λ v. VerifyReturns s measured.now.tag measured.now.length v (I.failures intake.old) (I.failures intake.new)
        result) }
{
    match verify_reading(keys, state, intake, measured) {
        Ok(finding) => answer_verify(finding),
        Err(fault) => Err(fault),
    }
}

// The third step: authenticates, decrypts and gives each piece.
fn write_step<I: Intake, O: Outlet>(
    keys: &MessageKeys,
    state: &PassState,
    measured: &Measured,
    intake: &mut I,
    outlet: &mut O,
) -> Result<(), Fault>
    requires empty { state.now.length ≡ 0 }
    requires high { measured.now.length ≤ text_limit_by (construction_by keys.now.cipher) + 16 }
    ensures blame { DueToBoth (Fault.SourceChanged ∷ []) (I.failures intake.old) (I.failures intake.new)
        (O.failures outlet.old) (O.failures outlet.new) result }
    ensures known { (s : Setting) → BeginsOpening keys.now state.now s → IfSome (I.left intake.old)
        (λ w. WriteReturns s measured.now.tag measured.now.length w (O.taken outlet.old) (O.taken outlet.new)
        (I.failures intake.old) (I.failures intake.new) (O.failures outlet.old) (O.failures outlet.new) result) }
{
    match pass_opening(keys, state, intake, measured, outlet) {
        Ok(finding) => answer_write(finding),
        Err(fault) => Err(fault),
    }
}

// Opens a sealed stream in three readings, from the keys of a message and the initial state of its pass.
fn open_over<I: Intake, J: Intake, K: Intake, O: Outlet>(
    keys: &MessageKeys,
    state: &PassState,
    measure: &mut I,
    verify: &mut J,
    write: &mut K,
    out: &mut O,
) -> Result<(), Fault>
    requires { state.now.length ≡ 0 }
    ensures aad { result ≢ Err Fault.AadTooLong }
    ensures blame { BlamesRightly
        (counted (I.failures measure.old) (J.failures verify.old) (K.failures write.old) (O.failures out.old))
        (counted (I.failures measure.new) (J.failures verify.new) (K.failures write.new) (O.failures out.new))
        result }
    ensures opens { (s : Setting) → BeginsOpening keys.now state.now s → IfAllKnown (I.left measure.old)
        (J.left verify.old) (K.left write.old) (O.taken out.old) (O.taken out.new)
        (λ m v w given. OpensStream s m v w given
        (counted (I.failures measure.old) (J.failures verify.old) (K.failures write.old) (O.failures out.old))
        (counted (I.failures measure.new) (J.failures verify.new) (K.failures write.new) (O.failures out.new))
        result) }
    ensures untouched { UntouchedUnless late_in_readings out.old out.new result }
{
    let measured = match measure_step(keys, measure) {
        Ok(measured) => measured,
        Err(fault) => return Err(fault),
    };
    match verify_step(keys, state, &measured, verify) {
        Ok(()) => write_step(keys, state, &measured, write, out),
        Err(fault) => Err(fault),
    }
}

/// Opens a sealed stream in three readings: it is measured, verified as a sealing, and then decrypted, each
/// piece being given before the next one is taken. Does not allocate, and holds buffers of a fixed size.
///
/// Faults: `AadTooLong` before any reading; `TextTooLong` if the first reading has more than 16 bytes past
/// the suite's limit of a text; `TooShort` if it has fewer than 16. `SourceChanged` if the second
/// reading has another length or other last 16 bytes, then `TagMismatch` if it is not a sealing; nothing is
/// given up to here. Then `SourceChanged` if the third reading has another length or other last 16 bytes, or
/// is not a sealing. `Read` if a reading failed, `Write` if the outlet did. After `AadTooLong`, `TextTooLong`,
/// `TooShort` and `TagMismatch` the outlet is as it was. After `SourceChanged`, `Read` and `Write` it may have
/// taken a beginning of a text, which must be thrown away.
pub fn open_stream<I: Intake, J: Intake, K: Intake, O: Outlet>(
    cipher: &AnyAead,
    nonce: &Nonce,
    aad: &[u8],
    measure: &mut I,
    verify: &mut J,
    write: &mut K,
    out: &mut O,
) -> Result<(), Fault>
    ensures aad { (result ≡ Err Fault.AadTooLong) ↔ (aad_limit (keyed_of cipher.now).suite < length aad.now) }
    ensures blame { BlamesRightly
        (counted (I.failures measure.old) (J.failures verify.old) (K.failures write.old) (O.failures out.old))
        (counted (I.failures measure.new) (J.failures verify.new) (K.failures write.new) (O.failures out.new))
        result }
    ensures opens { IfAllKnown (I.left measure.old) (J.left verify.old) (K.left write.old) (O.taken out.old)
        (O.taken out.new)
        (λ m v w given. OpensStream (setting (keyed_of cipher.now) nonce.now aad.now) m v w given
        (counted (I.failures measure.old) (J.failures verify.old) (K.failures write.old) (O.failures out.old))
        (counted (I.failures measure.new) (J.failures verify.new) (K.failures write.new) (O.failures out.new))
        result) }
    // After any other fault the outlet is as it was, also if its bytes are not known.
    ensures untouched { UntouchedUnless late_in_readings out.old out.new result }
{
    cipher.suite().check_aad(aad)?;
    match cipher {
        AnyAead::OnePass(cipher) => {
            let state = cipher.initial_state(nonce, aad);
            match cipher {
                AnyOnePass::ChaCha(_) => {
                    let keys = cipher.keys(nonce);
                    open_over(&keys, &state, measure, verify, write, out)
                }
                AnyOnePass::Gcm(cipher) => {
                    let multiplier = cipher.wide_multiplier();
                    let keys = gcm_keys(cipher, nonce, LentMul::Wide(&multiplier));
                    open_over(&keys, &state, measure, verify, write, out)
                }
            }
        }
        AnyAead::Siv(cipher) => {
            let derived = cipher.derive(nonce);
            let state = derived.initial_state(aad);
            let multiplier = WideMul::of(&derived.multiplier_key);
            let keys = derived.message_keys(nonce, LentMul::Wide(&multiplier));
            open_over(&keys, &state, measure, verify, write, out)
        }
    }
}
