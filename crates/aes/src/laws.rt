//! Laws of the definitions (FIPS 197, 4.4 and 5.1): the inverses of the field are inverses, and the cipher is one to one and onto.

ghost use Rattle.std.specs.Prelude.{ℕ, ◌<◌};
ghost use Rattle.aes.specs.Field.{inverse, IsInverse};
ghost use Rattle.aes.specs.Cipher.{IsPermutation};

/// The law of the field's inverses (FIPS 197, 4.4): the inverse of a byte other than 0 is the only byte
/// whose product with it is 1, and the inverse of 0 is 0. The call does nothing; its contract is the law.
pub fn inverse_is_the_only()
    ensures { (x : ℕ) → x < 256 → IsInverse x (inverse x) }
{}

/// The law of the cipher (FIPS 197, 5.1): under every key of 16, 24 or 32 bytes it takes blocks of 16 bytes
/// to blocks, one to one and onto. The call does nothing; its contract is the law.
pub fn is_permutation()
    ensures { IsPermutation }
{}
