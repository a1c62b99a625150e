//! The construction whose tag is over the ciphertext: ChaCha20-Poly1305 (RFC 8439, 2.8) and AES-GCM (SP 800-38D, 7).
//! Short texts have a way of their own in `gcm` and in `chacha_poly`: the same steps in the same order as `seal_whole` and
//! `open_whole`, so a change to one is made to all three.

ghost use Rattle.std.specs.Prelude.{◌≡◌, ◌≤◌, ◌++◌, ℕ, List, [], true, length, MatchResult};
ghost use Rattle.aead.specs.Suites.{construction_of, is_one_pass, text_limit, aad_limit};
ghost use Rattle.octets.specs.Masked.{masked};
ghost use Rattle.aead.specs.Sealing.{Opened, mask_of, tag_over};
ghost use Rattle.aead.specs.Ciphers.{Keyed, setting};
ghost use Rattle.aead.specs.Refusals.{OpenRefused};
ghost use Rattle.aead.specs.InPlace.{OpensInPlace};
ghost use Rattle.aead.specs.Code.States.{digest_over};

use crate::authenticator::Authenticator;
use crate::hashes::TagHash;
use crate::mask::MaskStream;
use crate::step::{MaskWith, Order, step};
use octets::{Block, Fault, Tag, same, tells_bytes};

// A message under a cipher and a nonce: it gives the mask and the hash of what is authenticated, and makes the tag of the hash. The
// mask does not depend on the tag.
pub(crate) trait OnePass {
    type Hash: TagHash;

    type Stream: MaskWith<Self::Hash>;

    ghost keyed: { Self → Keyed };

    ghost nonce: { Self → List ℕ };

    // Returns the mask.
    fn mask(&self) -> Self::Stream
        ensures { (aad tag : List ℕ) → Self.Stream.made result (setting (keyed self.now) (nonce self.now) aad) tag 0 };

    // Returns the hash, before any byte is taken in.
    fn hash(&self) -> Self::Hash
        ensures { (aad : List ℕ) → Self.Hash.held result (setting (keyed self.now) (nonce self.now) aad) [] };

    // Returns the tag, from the hash of what is authenticated.
    fn tag(&self, digest: &Block) -> Tag
        ensures { (aad m : List ℕ) → let s = setting (keyed self.now) (nonce self.now) aad in
            digest.now ≡ digest_over s m → result ≡ tag_over s.suite s.key s.nonce s.aad m };

    ghost one_pass: { (n : Self) → is_one_pass (construction_of (keyed n).suite) ≡ true };
}

// Encrypts a text in place, and returns the tag over the ciphertext.
pub(crate) fn seal_whole<N: OnePass>(message: &N, aad: &[u8], text: &mut [u8]) -> Tag
    requires aad_fits { length aad.now ≤ aad_limit (N.keyed message.now).suite }
    requires text_fits { length text.old ≤ text_limit (N.keyed message.now).suite }
    ensures { Opened (setting (N.keyed message.now) (N.nonce message.now) aad.now) (text.new ++ result)
        text.old }
{
    tells_bytes(text);
    let mut mask = message.mask();
    let mut authenticator = Authenticator::empty(message.hash());
    authenticator.begin(aad);
    step(Order::MaskFirst, &mut mask, &mut authenticator, text);
    message.tag(&authenticator.digest())
}

// Authenticates a ciphertext, and then decrypts it in place. If authentication fails, every byte is as it was.
pub(crate) fn open_whole<N: OnePass>(
    message: &N,
    aad: &[u8],
    body: &mut [u8],
    tag: &Tag,
) -> Result<(), Fault>
    requires aad_fits { length aad.now ≤ aad_limit (N.keyed message.now).suite }
    requires text_fits { length body.old ≤ text_limit (N.keyed message.now).suite }
    ensures { OpensInPlace (setting (N.keyed message.now) (N.nonce message.now) aad.now) tag.now body.old
        body.new result }
{
    let given = tag.bytes();
    let mut authenticator = Authenticator::empty(message.hash());
    authenticator.begin(aad);
    authenticator.update(body);
    if !same(message.tag(&authenticator.digest()).bytes(), given) {
        return Err(Fault::TagMismatch);
    }
    message.mask().apply_to(body);
    Ok(())
}

// Decrypts a ciphertext in place while it is authenticated. On error the bytes are what the ciphertext would open to.
fn decrypt_and_authenticate<N: OnePass>(
    message: &N,
    aad: &[u8],
    body: &mut [u8],
    tag: &Tag,
) -> Result<(), Fault>
    requires aad_fits { length aad.now ≤ aad_limit (N.keyed message.now).suite }
    requires text_fits { length body.old ≤ text_limit (N.keyed message.now).suite }
    ensures opened { let s = setting (N.keyed message.now) (N.nonce message.now) aad.now in
        MatchResult result (λ _. Opened s (body.old ++ tag.now) body.new) (OpenRefused s body.old tag.now) }
    ensures masked { let s = setting (N.keyed message.now) (N.nonce message.now) aad.now in
        body.new ≡ masked (mask_of s tag.now) 0 body.old }
{
    let given = tag.bytes();
    let mut mask = message.mask();
    let mut authenticator = Authenticator::empty(message.hash());
    authenticator.begin(aad);
    step(Order::HashFirst, &mut mask, &mut authenticator, body);
    if same(message.tag(&authenticator.digest()).bytes(), given) {
        Ok(())
    } else {
        Err(Fault::TagMismatch)
    }
}

// Decrypts a ciphertext in place while it is authenticated. If authentication fails, the mask is XORed in again, so that every
// byte is as it was.
pub(crate) fn open_and_restore<N: OnePass>(
    message: &N,
    aad: &[u8],
    body: &mut [u8],
    tag: &Tag,
) -> Result<(), Fault>
    requires aad_fits { length aad.now ≤ aad_limit (N.keyed message.now).suite }
    requires text_fits { length body.old ≤ text_limit (N.keyed message.now).suite }
    ensures { OpensInPlace (setting (N.keyed message.now) (N.nonce message.now) aad.now) tag.now body.old
        body.new result }
{
    match decrypt_and_authenticate(message, aad, body, tag) {
        Ok(()) => Ok(()),
        Err(fault) => {
            message.mask().apply_to(body);
            Err(fault)
        }
    }
}
