//! Callers of the calls for C, with what a sequence of calls proves if each of them returns 0. They give the arguments by place,
//! as C does, while clauses speak of names: so no export can exchange two of its parameters.

ghost use Rattle.std.specs.Prelude.{◌≡◌, ◌++◌, ℕ, List, [], take, true};
ghost use Rattle.aead.specs.declared.suite.Suite.{Suite};
ghost use Rattle.aead.specs.declared.suite.Construction.TheVariants.{GcmSiv as ByGcmSiv};
ghost use Rattle.aead.specs.Suites.{construction_of, is_one_pass, suite_number};
ghost use Rattle.aead.specs.Sealing.{Opened, sealing};
ghost use Rattle.aead.specs.KeyedPasses.{setting_of};
ghost use Rattle.keywrap.specs.Wrapping.{Unwrapped};
ghost use Rattle.keywrap.specs.Padded.{UnwrappedPadded};
ghost use Rattle.capi.specs.StoredKeys.{AreOfKey, KeepsKey};
ghost use Rattle.capi.specs.Sealers.{HoldsText};
ghost use Rattle.capi.specs.Openers.{HoldsChecking};
ghost use Rattle.capi.specs.Sivs.{HoldsAbsorbing};

use crate::key::{
    aeadkit_key_init, aeadkit_open_in_place_with, aeadkit_open_with, aeadkit_opener_init_with,
    aeadkit_seal_in_place_with, aeadkit_seal_with, aeadkit_sealer_init_with, aeadkit_siv_init_with,
};
use crate::key_wrap::{aeadkit_unwrap, aeadkit_unwrap_padded, aeadkit_wrap, aeadkit_wrap_padded};
use crate::opener::{
    StoredOpener, aeadkit_opener_begin_second, aeadkit_opener_check, aeadkit_opener_finish,
    aeadkit_opener_init, aeadkit_opener_update,
};
use crate::sealer::{
    StoredSealer, aeadkit_sealer_finish, aeadkit_sealer_init, aeadkit_sealer_update,
};
use crate::siv::{
    StoredSiv, aeadkit_siv_absorb, aeadkit_siv_begin_second, aeadkit_siv_finish, aeadkit_siv_init,
    aeadkit_siv_update,
};
use crate::stored_key::{KeyNumbers, StoredKey};
use crate::whole::{aeadkit_open, aeadkit_open_in_place, aeadkit_seal, aeadkit_seal_in_place};
use aead::{
    masked_pieces_join, masked_pieces_make_a_sealing, pieces_make_a_sealing, sealing_has_one_text,
};
use keywrap::{padded_wrapping_has_one_text, wrapping_has_one_text};

// Seals a text into another output, and opens it again.
fn sealed_and_opened(
    suite: u32,
    key: &[u8],
    nonce: &[u8],
    text: &[u8],
    aad: &[u8],
    sealed: &mut [u8],
    opened: &mut [u8],
) -> u32
    ensures { (named : Suite) → suite ≡ suite_number named → result ≡ 0
        → Opened (setting_of named key.now nonce.now aad.now) sealed.new text.now × (opened.new ≡ text.now) }
{
    sealing_has_one_text();
    let one = aeadkit_seal(suite, key, nonce, text, aad, sealed);
    if one != 0 {
        return one;
    }
    aeadkit_open(suite, key, nonce, sealed, aad, opened)
}

// Seals a text into another output under a kept key, and opens it again.
fn sealed_and_opened_with(
    kept: &StoredKey,
    nonce: &[u8],
    text: &[u8],
    aad: &[u8],
    sealed: &mut [u8],
    opened: &mut [u8],
) -> u32
    ensures { (suite : Suite) (key : List ℕ) → KeepsKey kept.now suite key → result ≡ 0
        → Opened (setting_of suite key nonce.now aad.now) sealed.new text.now × (opened.new ≡ text.now) }
{
    sealing_has_one_text();
    let one = aeadkit_seal_with(kept, nonce, text, aad, sealed);
    if one != 0 {
        return one;
    }
    aeadkit_open_with(kept, nonce, sealed, aad, opened)
}

// Seals a text in place.
fn sealed_in_place(
    suite: u32,
    key: &[u8],
    nonce: &[u8],
    text: &mut [u8],
    aad: &[u8],
    tag: &mut [u8; 16],
) -> u32
    ensures { (named : Suite) → suite ≡ suite_number named → result ≡ 0
        → Opened (setting_of named key.now nonce.now aad.now) (text.new ++ tag.new) text.old }
{
    aeadkit_seal_in_place(suite, key, nonce, text, aad, tag)
}

// Opens a ciphertext in place.
fn opened_in_place(
    suite: u32,
    key: &[u8],
    nonce: &[u8],
    text: &mut [u8],
    aad: &[u8],
    tag: &[u8; 16],
) -> u32
    ensures { (named : Suite) → suite ≡ suite_number named → result ≡ 0
        → Opened (setting_of named key.now nonce.now aad.now) (text.old ++ tag.now) text.new }
{
    aeadkit_open_in_place(suite, key, nonce, text, aad, tag)
}

// Seals a text in place under a kept key.
fn sealed_in_place_with(
    kept: &StoredKey,
    nonce: &[u8],
    text: &mut [u8],
    aad: &[u8],
    tag: &mut [u8; 16],
) -> u32
    ensures { (suite : Suite) (key : List ℕ) → KeepsKey kept.now suite key → result ≡ 0
        → Opened (setting_of suite key nonce.now aad.now) (text.new ++ tag.new) text.old }
{
    aeadkit_seal_in_place_with(kept, nonce, text, aad, tag)
}

// Opens a ciphertext in place under a kept key.
fn opened_in_place_with(
    kept: &StoredKey,
    nonce: &[u8],
    text: &mut [u8],
    aad: &[u8],
    tag: &[u8; 16],
) -> u32
    ensures { (suite : Suite) (key : List ℕ) → KeepsKey kept.now suite key → result ≡ 0
        → Opened (setting_of suite key nonce.now aad.now) (text.old ++ tag.now) text.new }
{
    aeadkit_open_in_place_with(kept, nonce, text, aad, tag)
}

// Wraps a text, and unwraps it again.
fn wrapped_and_unwrapped(key: &[u8], text: &[u8], wrapped: &mut [u8], unwrapped: &mut [u8]) -> u32
    ensures { result ≡ 0 → Unwrapped key.now wrapped.new text.now × (unwrapped.new ≡ text.now) }
{
    wrapping_has_one_text();
    let one = aeadkit_wrap(key, text, wrapped);
    if one != 0 {
        return one;
    }
    aeadkit_unwrap(key, wrapped, unwrapped)
}

// Wraps a text with padding, and unwraps it again.
fn wrapped_and_unwrapped_padded(
    key: &[u8],
    text: &[u8],
    wrapped: &mut [u8],
    unwrapped: &mut [u8],
    length: &mut usize,
) -> u32
    ensures { result ≡ 0
        → UnwrappedPadded key.now wrapped.new text.now × (take length.new unwrapped.new ≡ text.now) }
{
    padded_wrapping_has_one_text();
    let one = aeadkit_wrap_padded(key, text, wrapped);
    if one != 0 {
        return one;
    }
    aeadkit_unwrap_padded(key, wrapped, unwrapped, length)
}

// Keeps a key.
fn key_kept(kept: &mut KeyNumbers, suite: u32, key: &[u8]) -> u32
    ensures { (named : Suite) → suite ≡ suite_number named → result ≡ 0 → AreOfKey kept.new named key.now }
{
    aeadkit_key_init(kept, suite, key)
}

// Begins a sealing in one reading under a kept key.
fn sealer_begun(sealer: &mut StoredSealer, kept: &StoredKey, nonce: &[u8], aad: &[u8]) -> u32
    ensures { (suite : Suite) (key : List ℕ) → KeepsKey kept.now suite key
        → is_one_pass (construction_of suite) ≡ true → result ≡ 0
        → HoldsText sealer.new (setting_of suite key nonce.now aad.now) [] }
{
    aeadkit_sealer_init_with(sealer, kept, nonce, aad)
}

// Begins a sealing in two readings under a kept key.
fn siv_begun(siv: &mut StoredSiv, kept: &StoredKey, nonce: &[u8], aad: &[u8]) -> u32
    ensures { (suite : Suite) (key : List ℕ) → KeepsKey kept.now suite key
        → construction_of suite ≡ ByGcmSiv → result ≡ 0
        → HoldsAbsorbing siv.new (setting_of suite key nonce.now aad.now) [] }
{
    aeadkit_siv_init_with(siv, kept, nonce, aad)
}

// Begins an opening under a kept key.
fn opener_begun(
    opener: &mut StoredOpener,
    kept: &StoredKey,
    nonce: &[u8],
    aad: &[u8],
    tag: &[u8; 16],
) -> u32
    ensures { (suite : Suite) (key : List ℕ) → KeepsKey kept.now suite key → result ≡ 0
        → HoldsChecking opener.new (setting_of suite key nonce.now aad.now) tag.now [] }
{
    aeadkit_opener_init_with(opener, kept, nonce, aad, tag)
}

// Seals a text in two pieces: the ciphertext that is left in them, followed by the tag, is the sealing of the whole text.
fn sealed_in_two(
    sealer: &mut StoredSealer,
    suite: u32,
    key: &[u8],
    nonce: &[u8],
    aad: &[u8],
    first: &mut [u8],
    second: &mut [u8],
    tag: &mut [u8; 16],
) -> u32
    ensures { (named : Suite) → is_one_pass (construction_of named) ≡ true → suite ≡ suite_number named
        → result ≡ 0 → (first.new ++ second.new) ++ tag.new
        ≡ sealing (setting_of named key.now nonce.now aad.now) (first.old ++ second.old) }
{
    pieces_make_a_sealing();
    let begun = aeadkit_sealer_init(sealer, suite, key, nonce, aad);
    if begun != 0 {
        return begun;
    }
    let one = aeadkit_sealer_update(sealer, first);
    if one != 0 {
        return one;
    }
    let two = aeadkit_sealer_update(sealer, second);
    if two != 0 {
        return two;
    }
    aeadkit_sealer_finish(sealer, tag)
}

// Seals a text in two readings under AES-GCM-SIV, which may cut the text differently: the ciphertext that the second reading
// leaves, followed by the tag, is the sealing of the text.
fn sealed_by_two_readings(
    siv: &mut StoredSiv,
    suite: u32,
    key: &[u8],
    nonce: &[u8],
    aad: &[u8],
    head: &[u8],
    rest: &[u8],
    first: &mut [u8],
    second: &mut [u8],
    tag: &mut [u8; 16],
) -> u32
    ensures { (named : Suite) → construction_of named ≡ ByGcmSiv → suite ≡ suite_number named → result ≡ 0
        → (first.new ++ second.new) ++ tag.new
        ≡ sealing (setting_of named key.now nonce.now aad.now) (first.old ++ second.old) }
{
    masked_pieces_make_a_sealing();
    let begun = aeadkit_siv_init(siv, suite, key, nonce, aad);
    if begun != 0 {
        return begun;
    }
    let one = aeadkit_siv_absorb(siv, head);
    if one != 0 {
        return one;
    }
    let two = aeadkit_siv_absorb(siv, rest);
    if two != 0 {
        return two;
    }
    let ended = aeadkit_siv_begin_second(siv, tag);
    if ended != 0 {
        return ended;
    }
    let three = aeadkit_siv_update(siv, first);
    if three != 0 {
        return three;
    }
    let four = aeadkit_siv_update(siv, second);
    if four != 0 {
        return four;
    }
    aeadkit_siv_finish(siv)
}

// Opens a ciphertext in two passes, which may cut it differently: the second pass leaves the text of the sealing.
fn opened_by_two_passes(
    opener: &mut StoredOpener,
    suite: u32,
    key: &[u8],
    nonce: &[u8],
    aad: &[u8],
    tag: &[u8; 16],
    head: &[u8],
    rest: &[u8],
    first: &mut [u8],
    second: &mut [u8],
) -> u32
    ensures { (named : Suite) → suite ≡ suite_number named → result ≡ 0
        → Opened (setting_of named key.now nonce.now aad.now) ((first.old ++ second.old) ++ tag.now)
        (first.new ++ second.new) }
{
    masked_pieces_join();
    let begun = aeadkit_opener_init(opener, suite, key, nonce, aad, tag);
    if begun != 0 {
        return begun;
    }
    let one = aeadkit_opener_check(opener, head);
    if one != 0 {
        return one;
    }
    let two = aeadkit_opener_check(opener, rest);
    if two != 0 {
        return two;
    }
    let passed = aeadkit_opener_begin_second(opener);
    if passed != 0 {
        return passed;
    }
    let three = aeadkit_opener_update(opener, first);
    if three != 0 {
        return three;
    }
    let four = aeadkit_opener_update(opener, second);
    if four != 0 {
        return four;
    }
    aeadkit_opener_finish(opener)
}
