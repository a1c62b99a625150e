//! A place in a vector file, which says what line may come next, and the step that a line makes from it.

ghost use Rattle.std.specs.Prelude.{◌≡◌, ◌≤◌};
ghost use Rattle.vectors.specs.Grammar.{value_line, may_cut, unread, with_field};
ghost use Rattle.vectors.specs.Faults.{is_named};
ghost use Rattle.vectors.specs.Code.Steps.{value_at, hex_at, field_at, format_at, suite_at, text_at};
ghost use Rattle.vectors.specs.Code.Steps.{cuts_at, end_at, step};
ghost use Rattle.vectors.specs.declared.place.Place.TheVariants as places;
ghost use Rattle.vectors.specs.Code.Views.{view, bytes_in, entry_view, next_view, Gives};

use crate::cuts::are_cuts;
use crate::digits::Digits;
use crate::fault::Cause;
use crate::field::{is_gap, value_line};
use crate::suite::{Algorithm, Field, Format};

// A record as the file writes it, or the part of it that was read so far.
#[derive(Clone, Copy)]
pub(crate) struct Entry<'a> {
    pub(crate) suite: Algorithm,
    pub(crate) key: Digits<'a>,
    pub(crate) nonce: Digits<'a>,
    pub(crate) aad: Digits<'a>,
    pub(crate) sealed: Digits<'a>,
    pub(crate) text: Option<Digits<'a>>,
}

impl<'a> Entry<'a> {
    // A record of which only the suite was read.
    fn unread(suite: Algorithm) -> Entry<'a>
        ensures { entry_view result ≡ unread suite }
    {
        let none = Digits::none();
        Entry {
            suite,
            key: none,
            nonce: none,
            aad: none,
            sealed: none,
            text: None,
        }
    }

    // The record with the value of a field.
    fn with_field(self, field: Field, value: Digits<'a>) -> Entry<'a>
        ensures { entry_view result ≡ with_field field (bytes_in value.entry) (entry_view self.entry) }
    {
        match field {
            Field::Key => Entry { key: value, ..self },
            Field::Nonce => Entry {
                nonce: value,
                ..self
            },
            Field::Aad => Entry { aad: value, ..self },
            Field::Sealed => Entry {
                sealed: value,
                ..self
            },
        }
    }
}

// Which line is expected, with the part of the record that was read so far.
#[derive(Clone, Copy)]
pub(crate) enum Place<'a> {
    // The format line, or a line before it.
    Start,
    // The first line of a record, or a line between records.
    Between(Format),
    // The first of the fields that are left, or the end of the record if none is left.
    Fields {
        format: Format,
        left: &'static [Field],
        entry: Entry<'a>,
    },
    // The text line after cuts.
    Text {
        format: Format,
        entry: Entry<'a>,
    },
}

// The place after a line, and the record that the line ends, if it ends one.
pub(crate) struct Next<'a> {
    // The place after the line.
    pub(crate) place: Place<'a>,
    // The record that the line ends.
    pub(crate) ended: Option<Entry<'a>>,
}

impl<'a> Next<'a> {
    ghost use Rattle.std.specs.Prelude.{[], ◌∷◌};

    // The place after a line that doesn't end a record.
    fn at(place: Place<'a>) -> Next<'a>
        ensures { next_view result ≡ (view place.entry, []) }
    {
        Next { place, ended: None }
    }

    // The place after the last line of a record.
    fn after_record(format: Format, entry: Entry<'a>) -> Next<'a>
        ensures { next_view result ≡ (view (places.Between format), entry_view entry.entry ∷ []) }
    {
        Next {
            place: Place::Between(format),
            ended: Some(entry),
        }
    }
}

// The value of a line with this name.
#[tactic(auto, unfolding(crate::specs::Code::Steps::value_at))]
fn value_at<'a>(name: &[u8], line: &'a [u8]) -> Result<&'a [u8], Cause>
    ensures { Gives (λ v. v.now) result (value_at name.now line.entry.now) }
{
    match value_line(line) {
        None => Err(Cause::BadLine),
        Some((found, value)) => {
            if found == name {
                Ok(value)
            } else {
                Err(Cause::WrongName)
            }
        }
    }
}

// The digits of a line with this name.
#[tactic(auto, unfolding(crate::specs::Code::Steps::hex_at))]
fn hex_at<'a>(name: &[u8], line: &'a [u8]) -> Result<Digits<'a>, Cause>
    ensures { Gives bytes_in result (hex_at name.now line.entry.now) }
{
    let value = value_at(name, line)?;
    match Digits::of(value) {
        Some(digits) => Ok(digits),
        None => Err(Cause::BadHex),
    }
}

// The digits of a field.
#[tactic(auto, unfolding(crate::specs::Code::Steps::field_at))]
fn field_at<'a>(suite: Algorithm, field: Field, line: &'a [u8]) -> Result<Digits<'a>, Cause>
    ensures { Gives bytes_in result (field_at suite field line.entry.now) }
{
    let digits = hex_at(field.name(), line)?;
    match suite.field_length(field) {
        Some(length) => {
            if digits.byte_count() == length {
                Ok(digits)
            } else {
                Err(Cause::BadLength)
            }
        }
        None => Ok(digits),
    }
}

// The format that a line names.
#[tactic(auto, unfolding(crate::specs::Code::Steps::format_at))]
fn format_at(line: &[u8]) -> Result<Format, Cause>
    ensures { Gives (λ f. f) result (format_at line.now) }
{
    match value_line(line) {
        Some((name, value)) => {
            if name == b"format".as_slice() {
                Format::named(value).ok_or(Cause::BadFormat)
            } else {
                Err(Cause::BadFormat)
            }
        }
        None => Err(Cause::BadFormat),
    }
}

// The suite that a line names.
#[tactic(auto, unfolding(crate::specs::Code::Steps::suite_at))]
fn suite_at(format: Format, line: &[u8]) -> Result<Algorithm, Cause>
    ensures { Gives (λ s. s) result (suite_at format line.now) }
{
    let name = value_at(b"suite", line)?;
    Algorithm::named(format, name).ok_or(Cause::UnknownSuite)
}

// Whether a line is a value line with this name.
fn is_named(name: &[u8], line: &[u8]) -> bool
    ensures { result ≡ is_named name.now (value_line line.now) }
{
    match value_line(line) {
        Some((found, _)) => found == name,
        None => false,
    }
}

// Whether a record may have a line of cuts.
fn may_cut(format: Format, suite: Algorithm) -> bool
    ensures { result ≡ may_cut format suite }
{
    match format {
        Format::One => false,
        Format::Two => suite.is_aead(),
    }
}

// Handles a text line, which ends its record.
#[tactic(auto, unfolding(crate::specs::Code::Steps::text_at))]
fn text_at<'a>(format: Format, entry: Entry<'a>, line: &'a [u8]) -> Result<Next<'a>, Cause>
    ensures { Gives next_view result
        (text_at format (entry_view entry.entry) line.entry.now) }
{
    let text = Some(hex_at(b"text", line)?);
    Ok(Next::after_record(format, Entry { text, ..entry }))
}

// Handles a line of cuts.
#[tactic(auto, unfolding(crate::specs::Code::Steps::cuts_at))]
fn cuts_at<'a>(format: Format, entry: Entry<'a>, line: &'a [u8]) -> Result<Next<'a>, Cause>
    ensures { Gives next_view result
        (cuts_at format (entry_view entry.entry) line.entry.now) }
{
    let value = value_at(b"cuts", line)?;
    if are_cuts(entry.sealed.byte_count().saturating_sub(16) as u64, value) {
        Ok(Next::at(Place::Text { format, entry }))
    } else {
        Err(Cause::BadCuts)
    }
}

// Handles the line after the last field.
#[tactic(auto, unfolding(crate::specs::Code::Steps::end_at))]
fn end_at<'a>(format: Format, entry: Entry<'a>, line: &'a [u8]) -> Result<Next<'a>, Cause>
    ensures { Gives next_view result
        (end_at format (entry_view entry.entry) line.entry.now) }
{
    if line == b"invalid".as_slice() {
        return Ok(Next::after_record(
            format,
            Entry {
                text: None,
                ..entry
            },
        ));
    }
    if may_cut(format, entry.suite) && is_named(b"cuts", line) {
        return cuts_at(format, entry, line);
    }
    text_at(format, entry, line)
}

// Handles a line at a place.
#[tactic(auto, unfolding(crate::specs::Code::Steps::step))]
pub(crate) fn step<'a>(place: Place<'a>, line: &'a [u8]) -> Result<Next<'a>, Cause>
    ensures { Gives next_view result (step (view place.entry) line.entry.now) }
{
    match place {
        Place::Start => {
            if is_gap(line) {
                Ok(Next::at(Place::Start))
            } else {
                Ok(Next::at(Place::Between(format_at(line)?)))
            }
        }
        Place::Between(format) => {
            if is_gap(line) {
                Ok(Next::at(Place::Between(format)))
            } else {
                let suite = suite_at(format, line)?;
                Ok(Next::at(Place::Fields {
                    format,
                    left: suite.fields(),
                    entry: Entry::unread(suite),
                }))
            }
        }
        Place::Fields {
            format,
            left,
            entry,
        } => match left {
            [] => end_at(format, entry, line),
            [field, others @ ..] => {
                let value = field_at(entry.suite, *field, line)?;
                Ok(Next::at(Place::Fields {
                    format,
                    left: others,
                    entry: entry.with_field(*field, value),
                }))
            }
        },
        Place::Text { format, entry } => text_at(format, entry, line),
    }
}
