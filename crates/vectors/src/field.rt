//! The parts of a line of a vector file: a name and a value.

ghost use Rattle.std.specs.Prelude.{◌≡◌, option_map};
ghost use Rattle.std.specs.List.{list_all};
ghost use Rattle.hex.specs.Hex.{is_hex_digit};
ghost use Rattle.vectors.specs.Grammar.{field_of, value_line, is_gap};
ghost use Rattle.vectors.specs.Faults.{is_hex};

use crate::lines::{first_place, without_end_spaces, without_start_spaces};

// Whether a line is blank or a comment.
pub(crate) fn is_gap(line: &[u8]) -> bool
    ensures { result ≡ is_gap line.now }
{
    matches!(line, [] | [b'#', ..])
}

// The parts of a line before and after its first `=`.
#[tactic(auto, unfolding(crate::specs::Grammar::field_of))]
fn field_of(line: &[u8]) -> Option<(&[u8], &[u8])>
    ensures { option_map (λ f. (f.0.now, f.1.now)) result ≡ field_of line.now }
{
    let at = first_place(b'=', line)?;
    let name = without_end_spaces(&line[..at]);
    let value = without_start_spaces(&line[at + 1..]);
    Some((name, value))
}

// The name and the value of a value line.
#[tactic(auto, unfolding(crate::specs::Grammar::value_line))]
pub(crate) fn value_line(line: &[u8]) -> Option<(&[u8], &[u8])>
    ensures { option_map (λ f. (f.0.now, f.1.now)) result ≡ value_line line.now }
{
    if is_gap(line) {
        return None;
    }
    field_of(line)
}

// Whether a byte is a hexadecimal digit.
fn is_digit(byte: u8) -> bool
    ensures { result ≡ is_hex_digit byte }
{
    byte.is_ascii_hexdigit()
}

// Whether all bytes are hexadecimal digits. Without an early exit, many bytes are looked at together.
fn are_digits(text: &[u8]) -> bool
    ensures { result ≡ list_all is_hex_digit text.now }
{
    let mut all = true;
    for byte in text {
        all &= is_digit(*byte);
    }
    all
}

// Whether a value is an even number of hexadecimal digits.
#[tactic(auto, unfolding(crate::specs::Faults::is_hex))]
pub(crate) fn is_hex(text: &[u8]) -> bool
    ensures { result ≡ is_hex text.now }
{
    text.len() % 2 == 0 && are_digits(text)
}
