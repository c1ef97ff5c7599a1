// Templates of a page, and how they are put behind it.
ghost use Rattle.std.specs.Prelude.{◌≡◌, ◌++◌, OnOk, decimal, drop, map};
ghost use Rattle.std.specs.Slice.Iter.{iter_rest};
ghost use Rattle.html_pages.specs.Pieces.{bytes, date_text, filled, first_of, hour_text, minute_if_any, minute_text, minutes_text, path_byte, path_text, plain, plain_byte, text_of};

use plan_basics::{AppId, Moment, WsName};
use report_lines::latest_text;
use std::alloc::AllocError;
use std::slice::Iter;

/// A text that is put into a template: a question mark stands for a byte that HTML takes for markup.
#[derive(Clone, Copy)]
pub enum Value<'a> {
    Text(&'a [u8]),
    /// In a path: a number sign is escaped.
    Path(&'a [u8]),
    Application(AppId),
    Workstation(WsName),
    /// In decimal digits.
    Number(u64),
    /// A number of minutes, if there is one.
    Minutes(Option<u64>),
    /// `YYYY-MM-DD`.
    Date(Moment),
    /// `HH:MM`.
    Hour(Moment),
    /// `MM-DD HH:MM`; hyphens where there is none.
    At(Option<Moment>),
    /// So of a minute from 1972-01-01T00:00; hyphens where no plan can name it.
    Minute(i64),
}

// A byte that HTML takes as it stands; a question mark for any other.
fn plain_byte(byte: u8) -> u8
    ensures { result ≡ plain_byte byte }
{
    match byte {
        b'<' | b'>' | b'&' | b'"' | b'\'' => b'?',
        _ => byte,
    }
}

// Puts a text behind a page.
fn put_text(page: &mut Vec<u8>, text: &[u8]) -> Result<(), AllocError>
    ensures { OnOk result (page.new.items ≡ page.old.items ++ plain text.now) }
{
    for byte in text {
        page.push(plain_byte(*byte))?;
    }
    Ok(())
}

// Puts a byte of a path behind a page.
fn put_path_byte(page: &mut Vec<u8>, byte: u8) -> Result<(), AllocError>
    ensures { OnOk result (page.new.items ≡ page.old.items ++ plain (path_byte byte)) }
{
    if byte == b'#' {
        put_text(page, b"%23")
    } else {
        put_text(page, &[byte])
    }
}

// Puts a text in a path behind a page.
fn put_path(page: &mut Vec<u8>, text: &[u8]) -> Result<(), AllocError>
    ensures { OnOk result (page.new.items ≡ page.old.items ++ plain (path_text text.now)) }
{
    for byte in text {
        put_path_byte(page, *byte)?;
    }
    Ok(())
}

// Puts a number behind a page.
fn put_number(page: &mut Vec<u8>, number: u64) -> Result<(), AllocError>
    ensures { OnOk result (page.new.items ≡ page.old.items ++ plain (decimal number)) }
{
    let digits = format!(in *page.allocator(); "{number}")?;
    put_text(page, digits.as_bytes())
}

// Puts a number of minutes behind a page, if there is one.
fn put_minutes(page: &mut Vec<u8>, minutes: Option<u64>) -> Result<(), AllocError>
    ensures { OnOk result (page.new.items ≡ page.old.items ++ plain (minutes_text minutes)) }
{
    let Some(minutes) = minutes else {
        return Ok(());
    };
    put_number(page, minutes)?;
    put_text(page, b" min")?;
    Ok(())
}

// Puts the month, the day, the hour and the minute of a minute behind a page.
fn put_minute(page: &mut Vec<u8>, minute: i64) -> Result<(), AllocError>
    ensures { OnOk result (page.new.items ≡ page.old.items ++ plain (minute_text minute)) }
{
    let text = latest_text(minute);
    put_text(page, &text[5..10])?;
    put_text(page, b" ")?;
    put_text(page, &text[11..])?;
    Ok(())
}

// The minute of a moment; one before all that a plan can name where there is none.
fn minute_if_any(moment: Option<Moment>) -> i64
    ensures { result ≡ minute_if_any moment }
{
    match moment {
        Some(moment) => moment.minute(),
        None => -1,
    }
}

// Puts a value behind a page.
fn put_value(page: &mut Vec<u8>, value: &Value<'_>) -> Result<(), AllocError>
    ensures { OnOk result (page.new.items ≡ page.old.items ++ plain (text_of value.now)) }
{
    match value {
        Value::Text(text) => put_text(page, text),
        Value::Path(text) => put_path(page, text),
        Value::Application(name) => put_text(page, name.as_bytes()),
        Value::Workstation(name) => put_text(page, name.as_bytes()),
        Value::Number(number) => put_number(page, *number),
        Value::Minutes(minutes) => put_minutes(page, *minutes),
        Value::Date(moment) => put_text(page, &latest_text(moment.minute())[..10]),
        Value::Hour(moment) => put_text(page, &latest_text(moment.minute())[11..]),
        Value::At(moment) => put_minute(page, minute_if_any(*moment)),
        Value::Minute(minute) => put_minute(page, *minute),
    }
}

// Puts the next of these values behind a page, if there is one.
fn put_next(page: &mut Vec<u8>, left: &mut Iter<'_, Value<'_>>) -> Result<(), AllocError>
    ensures page { OnOk result (page.new.items ≡ page.old.items ++ plain (first_of (map text_of (iter_rest left.old)))) }
    ensures left { iter_rest left.new ≡ drop 1 (iter_rest left.old) }
{
    match left.next() {
        Some(value) => put_value(page, value),
        None => Ok(()),
    }
}

/// Puts a template behind a page, these values in its holes, each a `~`, one after another. It fails for want of memory only.
pub fn put(page: &mut Vec<u8>, template: &str, values: &[Value<'_>]) -> Result<(), AllocError>
    ensures { OnOk result (page.new.items ≡ page.old.items ++ bytes (filled template.now (map text_of values.now))) }
{
    let mut left = values.iter();
    for byte in template.as_bytes() {
        if *byte == b'~' {
            put_next(page, &mut left)?;
        } else {
            page.push(*byte)?;
        }
    }
    Ok(())
}
