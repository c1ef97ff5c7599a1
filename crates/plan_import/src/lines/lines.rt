// The lines of a text on which its records begin.
ghost use Rattle.std.specs.Prelude.{◌≡◌, IfOk};
ghost use Rattle.csv.specs.Machine.{ends_with, in_field, start_field, step};
ghost use Rattle.csv.specs.Reading.{default_config, strip_bom};
ghost use Rattle.csv.specs.declared.parser.State.TheVariants as st;
ghost use Rattle.csv.specs.declared.parser.Terminator.TheVariants as term;
ghost use Rattle.plan_import.specs.Lines.{BeginOn, BeginOnFrom};
ghost use Rattle.plan_import.specs.Places.{begins, state_of};

use std::alloc::{AllocError, Global};

// What may stand at the front of a text.
const BYTE_ORDER_MARK: &[u8] = b"\xef\xbb\xbf";

// Where a byte stands among the records and fields of a text.
#[derive(Clone, Copy)]
enum Place {
    // Where no record is begun.
    Between,
    // There too, after a carriage return, whose line feed may follow.
    AfterReturn,
    // At the first byte of a field, but of a record's first.
    FieldStart,
    // In a field without quotes.
    Unquoted,
    // In a quoted field.
    Quoted,
    // After a quote in a quoted field: it ends the field, unless a second one follows.
    AfterQuote,
}

// Whether a byte ends a line.
fn ends_line(byte: u8) -> bool
    ensures { result ≡ ends_with term.CRLF byte }
{
    byte == b'\r' || byte == b'\n'
}

// The place after a byte of a field without quotes.
fn after_unquoted(byte: u8) -> Place
    ensures { state_of result ≡ (in_field default_config byte).0 }
{
    match byte {
        b',' => Place::FieldStart,
        b'\r' => Place::AfterReturn,
        b'\n' => Place::Between,
        _ => Place::Unquoted,
    }
}

// The place after a byte with which a field begins, or goes on after a quote.
fn after_first(byte: u8) -> Place
    ensures { state_of result ≡ (start_field default_config byte).0 }
{
    if byte == b'"' {
        Place::Quoted
    } else {
        after_unquoted(byte)
    }
}

impl Place {
    // Whether a record begins with a byte that stands here.
    fn begins(self, byte: u8) -> bool
        ensures { result ≡ begins (state_of self) byte }
    {
        matches!(self, Place::Between | Place::AfterReturn) && !ends_line(byte)
    }

    // The place after a byte that stands here.
    fn after(self, byte: u8) -> Place
        ensures { state_of result ≡ (step default_config (state_of self) byte).0 }
    {
        match self {
            Place::Between | Place::AfterReturn if ends_line(byte) => Place::Between,
            Place::Quoted if byte == b'"' => Place::AfterQuote,
            Place::Quoted => Place::Quoted,
            Place::Unquoted => after_unquoted(byte),
            _ => after_first(byte),
        }
    }
}

// The lines on which the records of bytes begin.
fn lines_of_bytes(alloc: Global, bytes: &[u8]) -> Result<Vec<u64>, AllocError>
    ensures { IfOk result (λ v. BeginOnFrom st.StartRecord bytes.now 1 v.items) }
{
    let mut place = Place::Between;
    let mut line = 1;
    let mut lines = Vec::new(alloc);
    for byte in bytes {
        if place.begins(*byte) {
            lines.push(line)?;
        }
        line += u64::from(*byte == b'\n');
        place = place.after(*byte);
    }
    Ok(lines)
}

// A text without the byte order mark at its front, if it has one.
fn without_mark(text: &[u8]) -> &[u8]
    ensures { result.now ≡ strip_bom text.now }
{
    match text.strip_prefix(BYTE_ORDER_MARK) {
        Some(rest) => rest,
        None => text,
    }
}

// The lines on which the records of a text begin, the first line being line 1.
pub fn lines_of_text(alloc: Global, text: &[u8]) -> Result<Vec<u64>, AllocError>
    ensures { IfOk result (λ v. BeginOn text.now v.items) }
{
    lines_of_bytes(alloc, without_mark(text))
}
