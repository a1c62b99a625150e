//! The lines of a vector file, one after the other.

ghost use Rattle.std.specs.Prelude.{◌≡◌, ◌↔◌, ◌∷◌, ◌<◌, [], IfSome, IsNone, length, position, ◌==◌};
ghost use Rattle.std.specs.Str.Lines.{strip_carriage_return};
ghost use Rattle.vectors.specs.Lines.{lines_of, trim_end, trim_start};

use memchr::memchr;

// A line without the spaces at its end.
pub(crate) fn without_end_spaces(line: &[u8]) -> &[u8]
    ensures { result.now ≡ trim_end line.now }
{
    let mut rest = line;
    while let [front @ .., b' '] = rest {
        rest = front;
    }
    rest
}

// A value without the spaces at its beginning.
pub(crate) fn without_start_spaces(value: &[u8]) -> &[u8]
    ensures { result.now ≡ trim_start value.now }
{
    let mut rest = value;
    while let [b' ', behind @ ..] = rest {
        rest = behind;
    }
    rest
}

// A line without a carriage return at its end, of which only one is dropped.
fn without_carriage_return(line: &[u8]) -> &[u8]
    ensures { result.now ≡ strip_carriage_return line.now }
{
    match line {
        [front @ .., b'\r'] => front,
        _ => line,
    }
}

// The index of the first occurrence of a byte.
pub(crate) fn first_place(byte: u8, bytes: &[u8]) -> Option<usize>
    ensures { result ≡ position (λ b. b == byte) bytes.now }
{
    memchr(byte, bytes)
}

// The first line, and the bytes after it.
pub(crate) fn first_line(bytes: &[u8]) -> Option<(&[u8], &[u8])>
    ensures none { IsNone result ↔ (bytes.now ≡ []) }
    ensures line { IfSome result (λ r. lines_of bytes.now ≡ r.0.now ∷ lines_of r.1.now) }
    ensures shorter { IfSome result (λ r. length r.1.now < length bytes.now) }
{
    if bytes.is_empty() {
        return None;
    }
    match first_place(b'\n', bytes) {
        Some(end) => {
            let line = without_carriage_return(&bytes[..end]);
            Some((without_end_spaces(line), &bytes[end + 1..]))
        }
        None => Some((without_end_spaces(bytes), &bytes[bytes.len()..])),
    }
}
