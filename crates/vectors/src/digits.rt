//! Hexadecimal digits and the bytes that they spell.

ghost use Rattle.std.specs.Prelude.{◌≡◌, ◌<◌, true, Some, IsTrue};
ghost use Rattle.hex.specs.Hex.{is_hex_digit, hex_digit_value};
ghost use Rattle.vectors.specs.Faults.{is_hex};

use crate::field::is_hex;
use std::alloc::{AllocError, Allocator};

// The value of a hexadecimal digit of either case, computed from its bits.
fn digit_value(digit: u8) -> u8
    ensures value { IsTrue (is_hex_digit digit) → hex_digit_value digit ≡ Some result }
    ensures small { IsTrue (is_hex_digit digit) → result < 16 }
{
    (digit & 15) + 9 * (digit >> 6)
}

// An even number of hexadecimal digits of either case.
#[derive(Clone, Copy)]
pub(crate) struct Digits<'a> {
    text: &'a [u8],
    ghost valid: { is_hex text.now ≡ true },
}

impl<'a> Digits<'a> {
    ghost use Rattle.std.specs.Prelude.{length, [], IfOk, MatchOption, false, take, drop, ◌≤◌};
    ghost use Rattle.std.specs.Prelude.{◌↔◌, get_or};
    ghost use Rattle.vectors.specs.Faults.{bytes_of};
    ghost use Rattle.vectors.specs.Code.Views.{bytes_in};

    // Returns the value as digits, or `None` if it is not an even number of hexadecimal digits.
    pub(crate) fn of(value: &'a [u8]) -> Option<Digits<'a>>
        ensures { MatchOption result (is_hex value.entry.now ≡ false)
            (λ d. (is_hex value.entry.now ≡ true) × (bytes_in d ≡ bytes_of value.entry.now)) }
    {
        if is_hex(value) {
            Some(Digits { text: value })
        } else {
            None
        }
    }

    // Returns an empty list of digits.
    pub(crate) fn none() -> Digits<'a>
        ensures { bytes_in result ≡ [] }
    {
        Digits { text: &[] }
    }

    // Returns the number of bytes.
    #[tactic(auto, using(crate::proofs::DigitLemmas::digits_length))]
    pub(crate) fn byte_count(self) -> usize
        ensures { result ≡ length (bytes_in self.entry) }
    {
        self.text.len() / 2
    }

    // Splits the digits after the first `count` bytes.
    #[tactic(auto, using(crate::proofs::DigitLemmas::digits_length))]
    pub(crate) fn split_at(self, count: usize) -> (Digits<'a>, Digits<'a>)
        requires { count ≤ length (bytes_in self) }
        ensures front { bytes_in result.0 ≡ take count (bytes_in self.entry) }
        ensures back { bytes_in result.1 ≡ drop count (bytes_in self.entry) }
    {
        let (front, back) = self.text.split_at(2 * count);
        (Digits { text: front }, Digits { text: back })
    }

    // Returns the byte at an index.
    #[tactic(auto, using(crate::proofs::DigitLemmas::digits_length))]
    fn byte(self, i: usize) -> u8
        requires { i < length (bytes_in self) }
        ensures { result ≡ get_or (bytes_in self.entry) i 0 }
    {
        digit_value(self.text[2 * i]) * 16 + digit_value(self.text[2 * i + 1])
    }

    // Returns true if the digits spell these bytes.
    pub(crate) fn spell(self, bytes: &[u8]) -> bool
        ensures { IsTrue result ↔ (bytes_in self.entry ≡ bytes.now) }
    {
        if bytes.len() != self.byte_count() {
            return false;
        }
        // Without an early exit, many bytes are compared at once.
        let mut same = true;
        'bytes: for i in 0..bytes.len() {
            same &= self.byte(i) == bytes[i];
        }
        same
    }

    // Writes the bytes into a slice of the same length.
    pub(crate) fn write(self, room: &mut [u8])
        requires { length room.old ≡ length (bytes_in self) }
        ensures { room.new ≡ bytes_in self.entry }
    {
        'bytes: for i in 0..room.len() {
            room[i] = self.byte(i);
        }
    }

    // Returns the bytes in a new vector.
    pub(crate) fn bytes<A: Allocator>(self, alloc: A) -> Result<Vec<u8, A>, AllocError>
        ensures { IfOk result (λ bytes. bytes.items ≡ bytes_in self.entry) }
    {
        let mut bytes = vec![in alloc; 0u8; self.byte_count()]?;
        self.write(&mut bytes);
        Ok(bytes)
    }
}
