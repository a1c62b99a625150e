//! The steps of a pass over a message under AES-GCM (SP 800-38D, 7) and AES-GCM-SIV (RFC 8452, 4), by the key that its text is
//! encrypted with.

ghost use Rattle.std.specs.Prelude.{◌≡◌, ◌+◌, ◌<◌, ◌≤◌, ◌^◌, ℕ, List, [], length};
ghost use Rattle.gf128.specs.Code.States.{key_of};
ghost use Rattle.gf128.specs.Orders.{Serves};
ghost use Rattle.aead.specs.Suites.{construction_of, aad_limit};
ghost use Rattle.aead.specs.Sealing.{Setting};
ghost use Rattle.aead.specs.PassStates.{IsMessageSecret, HoldsNumbers};
ghost use Rattle.aead.specs.KeyedPasses.{cipher_key};
ghost use Rattle.aead.specs.Code.States.{block_key, digest_over};
ghost use Rattle.aead.specs.Code.Masks.{hashed_by};
ghost use Rattle.aead.specs.Code.MessageKeys.{AreAesKeys, lent_key};
ghost use Rattle.aead.specs.Code.PassSteps.{MasksPieceKnowing, TakesPiece, TakesPieceText};

use crate::hashes::{BlockKeys, first_block};
use crate::pieces::keys::{AesKeys, ExpandedKey, KeyBytes, LentMul};
use crate::pieces::pass_state::PassState;
use crate::pieces::text_parts::PART;
use crate::rule::Rule;
use crate::step::Order;
use aes::{AesKey, Ctr, KnownBlock};
use gf128::{Keyed128, TableMul, WideMul};
use octets::{Block, Nonce};

// The initial state for associated data, with a table that is made here, so that only this call has it on its stack.
#[inline(never)]
fn state_after_aad<R: Rule>(secret: [u8; 32], aad: &[u8]) -> PassState
    ensures { (s : Setting) → construction_of s.suite ≡ R.Count.by → IsMessageSecret R.Count.by secret s
        → s.aad ≡ aad.now → length aad.now ≤ aad_limit s.suite → HoldsNumbers result s [] }
{
    let multiplier = TableMul::of(&first_block(&secret));
    PassState::initial(&BlockKeys::<TableMul, R>::by(&multiplier), secret, aad)
}

// The initial state for associated data. Without them no table is needed.
pub(crate) fn initial_state<R: Rule>(secret: [u8; 32], aad: &[u8]) -> PassState
    ensures { (s : Setting) → construction_of s.suite ≡ R.Count.by → IsMessageSecret R.Count.by secret s
        → s.aad ≡ aad.now → length aad.now ≤ aad_limit s.suite → HoldsNumbers result s [] }
{
    if aad.is_empty() {
        PassState::empty(secret)
    } else {
        state_after_aad::<R>(secret, aad)
    }
}

// Masks and authenticates a piece with a key schedule and a multiplier.
fn mask_expanded<R: Rule>(
    state: &mut PassState,
    keys: ExpandedKey,
    nonce: &Nonce,
    known: &mut KnownBlock,
    order: Order,
    tag: &[u8; 16],
    piece: &mut [u8],
)
    requires { state.old.length + length piece.old ≤ 2 ^ 36 }
    ensures masks { (s : Setting) (fed : List ℕ) → construction_of s.suite ≡ R.Count.by
        → AreAesKeys R.Count.by R.order (AesKeys.Expanded keys.entry) s → nonce.now ≡ s.nonce
        → MasksPieceKnowing (hashed_by order) state.old state.new known.old known.new piece.old piece.new
        (cipher_key R.Count.by s) s tag.now fed }
    ensures length { state.new.length ≡ state.old.length + length piece.old }
{
    let first = R::first_counter(nonce, tag);
    let mut mask = Ctr::<R::Count>::at_known(keys.key, &first, state.length, known);
    state.step(
        &BlockKeys::<LentMul, R>::by(&keys.multiplier),
        &mut mask,
        order,
        piece,
    );
    mask.set_known(known);
}

// Masks and authenticates a piece under the bytes of a key. Only this call has the key schedule and the table on its stack.
#[inline(never)]
fn mask_anew<R: Rule>(
    state: &mut PassState,
    bytes: KeyBytes,
    nonce: &Nonce,
    known: &mut KnownBlock,
    order: Order,
    tag: &[u8; 16],
    piece: &mut [u8],
)
    requires { state.old.length + length piece.old ≤ 2 ^ 36 }
    ensures masks { (s : Setting) (fed : List ℕ) → construction_of s.suite ≡ R.Count.by
        → AreAesKeys R.Count.by R.order (AesKeys.Bytes bytes.entry) s → nonce.now ≡ s.nonce
        → MasksPieceKnowing (hashed_by order) state.old state.new known.old known.new piece.old piece.new
        (cipher_key R.Count.by s) s tag.now fed }
    ensures length { state.new.length ≡ state.old.length + length piece.old }
{
    let key = bytes.schedule();
    let multiplier = TableMul::of(&state.multiplier_key());
    let keys = ExpandedKey {
        key: &key,
        multiplier: LentMul::Table(&multiplier),
    };
    mask_expanded::<R>(state, keys, nonce, known, order, tag, piece);
}

// Masks and authenticates a piece.
#[inline(always)]
pub(crate) fn mask<R: Rule>(
    state: &mut PassState,
    keys: AesKeys,
    nonce: &Nonce,
    known: &mut KnownBlock,
    order: Order,
    tag: &[u8; 16],
    piece: &mut [u8],
)
    requires { state.old.length + length piece.old ≤ 2 ^ 36 }
    ensures masks { (s : Setting) (fed : List ℕ) → construction_of s.suite ≡ R.Count.by
        → AreAesKeys R.Count.by R.order keys.entry s → nonce.now ≡ s.nonce
        → MasksPieceKnowing (hashed_by order) state.old state.new known.old known.new piece.old piece.new
        (cipher_key R.Count.by s) s tag.now fed }
    ensures length { state.new.length ≡ state.old.length + length piece.old }
{
    match keys {
        AesKeys::Expanded(keys) => mask_expanded::<R>(state, keys, nonce, known, order, tag, piece),
        AesKeys::Bytes(bytes) => mask_anew::<R>(state, bytes, nonce, known, order, tag, piece),
    }
}

// Authenticates a piece with a table that is made here. The hash needs no key schedule.
#[inline(never)]
fn take_anew<R: Rule>(state: &mut PassState, piece: &[u8])
    requires { state.old.length + length piece.now < 2 ^ 64 }
    ensures takes { (s : Setting) (bytes : List ℕ) → construction_of s.suite ≡ R.Count.by
        → TakesPiece state.old state.new piece.now s bytes }
    ensures length { state.new.length ≡ state.old.length + length piece.now }
{
    let multiplier = TableMul::of(&state.multiplier_key());
    state.take(&BlockKeys::<TableMul, R>::by(&multiplier), piece);
}

// Authenticates a piece.
#[inline(always)]
pub(crate) fn take<R: Rule>(state: &mut PassState, keys: AesKeys, piece: &[u8])
    requires { state.old.length + length piece.now < 2 ^ 64 }
    ensures takes { (s : Setting) (bytes : List ℕ) → construction_of s.suite ≡ R.Count.by
        → AreAesKeys R.Count.by R.order keys.entry s → TakesPiece state.old state.new piece.now s bytes }
    ensures length { state.new.length ≡ state.old.length + length piece.now }
{
    match keys {
        AesKeys::Expanded(keys) => state.take(
            &BlockKeys::<LentMul, R>::by(&keys.multiplier),
            piece,
        ),
        AesKeys::Bytes(_) => take_anew::<R>(state, piece),
    }
}

// Authenticates the text of a long piece of a ciphertext, which is decrypted part by part. The round keys are put into planes once,
// and not for each part. Only this call has them on its stack.
#[inline(never)]
fn take_text_in_planes<R: Rule>(
    state: &mut PassState,
    key: &AesKey,
    multiplier: LentMul,
    nonce: &Nonce,
    tag: &[u8; 16],
    piece: &[u8],
)
    requires { state.old.length + length piece.now ≤ 2 ^ 36 }
    ensures { (s : Setting) (fed : List ℕ) → construction_of s.suite ≡ R.Count.by
        → key.now ≡ cipher_key R.Count.by s → Serves R.order (block_key R.Count.by s) (lent_key multiplier.entry)
        → nonce.now ≡ s.nonce → TakesPieceText state.old state.new piece.now s tag.now fed }
{
    let first = R::first_counter(nonce, tag);
    let mut planes = [[0; 8]; 15];
    key.make_planes(&mut planes);
    let mut mask = Ctr::<R::Count>::in_planes(key, &planes, &first, state.length);
    state.take_text(&BlockKeys::<LentMul, R>::by(&multiplier), &mut mask, piece);
}

// Authenticates the text of a long piece of a ciphertext. The tables of four powers of the hash key are made once, and not for each
// part. Only this call has them on its stack.
#[inline(never)]
fn take_text_by_powers<R: Rule>(
    state: &mut PassState,
    key: &AesKey,
    table: &TableMul,
    nonce: &Nonce,
    tag: &[u8; 16],
    piece: &[u8],
)
    requires { state.old.length + length piece.now ≤ 2 ^ 36 }
    ensures { (s : Setting) (fed : List ℕ) → construction_of s.suite ≡ R.Count.by
        → key.now ≡ cipher_key R.Count.by s → Serves R.order (block_key R.Count.by s) (key_of table.now)
        → nonce.now ≡ s.nonce → TakesPieceText state.old state.new piece.now s tag.now fed }
{
    let mut multiplier = WideMul::none();
    multiplier.set_table(table);
    let lent = LentMul::Wide(&multiplier);
    take_text_in_planes::<R>(state, key, lent, nonce, tag, piece);
}

// Authenticates the text of a piece of a ciphertext with a key schedule and a multiplier.
fn take_text_expanded<R: Rule>(
    state: &mut PassState,
    keys: ExpandedKey,
    nonce: &Nonce,
    tag: &[u8; 16],
    piece: &[u8],
)
    requires { state.old.length + length piece.now ≤ 2 ^ 36 }
    ensures { (s : Setting) (fed : List ℕ) → construction_of s.suite ≡ R.Count.by
        → AreAesKeys R.Count.by R.order (AesKeys.Expanded keys.entry) s → nonce.now ≡ s.nonce
        → TakesPieceText state.old state.new piece.now s tag.now fed }
{
    if piece.len() > PART {
        match keys.multiplier {
            LentMul::Table(table) => take_text_by_powers::<R>(
                state, keys.key, table, nonce, tag, piece,
            ),
            LentMul::Wide(_) => take_text_in_planes::<R>(
                state,
                keys.key,
                keys.multiplier,
                nonce,
                tag,
                piece,
            ),
        }
        return;
    }
    let first = R::first_counter(nonce, tag);
    let mut mask = Ctr::<R::Count>::at_known(keys.key, &first, state.length, &KnownBlock::none());
    state.take_text(
        &BlockKeys::<LentMul, R>::by(&keys.multiplier),
        &mut mask,
        piece,
    );
}

// Authenticates the text of a piece of a ciphertext under the bytes of a key. Only this call has the key schedule and the table on
// its stack.
#[inline(never)]
fn take_text_anew<R: Rule>(
    state: &mut PassState,
    bytes: KeyBytes,
    nonce: &Nonce,
    tag: &[u8; 16],
    piece: &[u8],
)
    requires { state.old.length + length piece.now ≤ 2 ^ 36 }
    ensures { (s : Setting) (fed : List ℕ) → construction_of s.suite ≡ R.Count.by
        → AreAesKeys R.Count.by R.order (AesKeys.Bytes bytes.entry) s → nonce.now ≡ s.nonce
        → TakesPieceText state.old state.new piece.now s tag.now fed }
{
    let key = bytes.schedule();
    let multiplier = TableMul::of(&state.multiplier_key());
    let keys = ExpandedKey {
        key: &key,
        multiplier: LentMul::Table(&multiplier),
    };
    take_text_expanded::<R>(state, keys, nonce, tag, piece);
}

// Authenticates the text of a piece of a ciphertext.
#[inline(always)]
pub(crate) fn take_text<R: Rule>(
    state: &mut PassState,
    keys: AesKeys,
    nonce: &Nonce,
    tag: &[u8; 16],
    piece: &[u8],
)
    requires { state.old.length + length piece.now ≤ 2 ^ 36 }
    ensures { (s : Setting) (fed : List ℕ) → construction_of s.suite ≡ R.Count.by
        → AreAesKeys R.Count.by R.order keys.entry s → nonce.now ≡ s.nonce
        → TakesPieceText state.old state.new piece.now s tag.now fed }
{
    match keys {
        AesKeys::Expanded(keys) => take_text_expanded::<R>(state, keys, nonce, tag, piece),
        AesKeys::Bytes(bytes) => take_text_anew::<R>(state, bytes, nonce, tag, piece),
    }
}

// Returns the hash of what was authenticated, with a table that is made here.
#[inline(never)]
fn digest_anew<R: Rule>(state: &PassState) -> Block
    ensures { (s : Setting) (bytes : List ℕ) → construction_of s.suite ≡ R.Count.by → HoldsNumbers state.now s bytes
        → result ≡ digest_over s bytes }
{
    let multiplier = TableMul::of(&state.multiplier_key());
    state.digest(&BlockKeys::<TableMul, R>::by(&multiplier))
}

// Returns the hash of what was authenticated, of which the tag is made.
#[inline(always)]
pub(crate) fn digest<R: Rule>(state: &PassState, keys: AesKeys) -> Block
    ensures { (s : Setting) (bytes : List ℕ) → construction_of s.suite ≡ R.Count.by
        → AreAesKeys R.Count.by R.order keys.entry s → HoldsNumbers state.now s bytes → result ≡ digest_over s bytes }
{
    match keys {
        AesKeys::Expanded(keys) => state.digest(&BlockKeys::<LentMul, R>::by(&keys.multiplier)),
        AesKeys::Bytes(_) => digest_anew::<R>(state),
    }
}
