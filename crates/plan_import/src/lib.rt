//! Plans, occurrences to be added and extensions, from texts of comma-separated fields, over any reader of bytes; and the
//! records of such a text, each with the line where it begins.
#![tactic(auto)]

mod lines;

ghost use Rattle.std.specs.Prelude.{◌≡◌, ◌↔◌, All, IfOk, IfSome, OnOk, length, MatchOption, Err, true, false, option_map};
ghost use Rattle.csv.specs.Records.{fields_of as row_fields};
ghost use Rattle.csv.specs.Reading.{strip_bom, source_of, reader_state, stops_reader, error_kind};
ghost use Rattle.csv.specs.declared.parser.State.TheVariants as st;
ghost use Rattle.plan_records.specs.plan_model.specs.Contents.{Contents, AddedParts};
ghost use Rattle.plan_items.specs.Items.{IsItem, Says, fields_of};
ghost use Rattle.plan_import.specs.Records.{IsPlain, IsSaidIn, IsTen, SaysNext, SaysSome};
ghost use Rattle.plan_import.specs.Texts.{TextDenotes, TextDenotesAddition, TextDenotesExtension};
ghost use Rattle.plan_basics.specs.Watched.{inner_of, failed_of};

use csv::{ByteRecord, ErrorKind, Reader, ReaderBuilder};
pub use lines::{TextRecords, records_of_text};
use plan_basics::Watched;
use plan_denotation::{addition_of_items, draft_of_items, extension_of_items};
use plan_items::{Item, read_item};
use plan_records::{Addition, Extension, PlanDraft};
use std::alloc::{AllocError, AllocFailed, Global};
use std::io::Read;

/// Why a text could not be read to its end.
#[derive(Clone, Copy, PartialEq, Eq)]
pub enum ImportFault {
    /// Memory lacked.
    Memory,
    /// The reader answered a fault.
    Reader,
}

impl From<AllocError> for ImportFault {
    ghost use Rattle.std.specs.Prelude.{◌≡◌};
    ghost use Rattle.plan_import.specs.declared.ImportFault.{ImportFault};

    ghost from_gives = { λ _ fault. fault ≡ ImportFault.Memory };

    fn from(_e: AllocError) -> ImportFault {
        ImportFault::Memory
    }
}

impl<T: Drop> From<AllocFailed<T>> for ImportFault {
    ghost use Rattle.std.specs.Prelude.{◌≡◌};
    ghost use Rattle.plan_import.specs.declared.ImportFault.{ImportFault};

    ghost from_gives = { λ _ fault. fault ≡ ImportFault.Memory };

    fn from(_e: AllocFailed<T>) -> ImportFault {
        ImportFault::Memory
    }
}

/// The fault of a reader of records, exactly where it has stopped; none where it goes on, after a record of another length.
fn fault_of(error: &csv::Error) -> Option<ImportFault>
    ensures { MatchOption result (stops_reader (error_kind error.now) ≡ false) (λ _. stops_reader (error_kind error.now) ≡ true) }
{
    match error.kind() {
        ErrorKind::Io(_) => Some(ImportFault::Reader),
        ErrorKind::OutOfMemory => Some(ImportFault::Memory),
        _ => None,
    }
}

/// What a text goes on with.
#[derive(Drop)]
enum Said {
    /// What the record says.
    Item(Item),
    /// A record that says nothing.
    Nothing,
    /// Nothing more.
    End,
}

/// Puts a text in the place of another one.
fn put(field: &mut Vec<u8>, text: &[u8]) -> Result<(), AllocError>
    ensures { OnOk result (field.new.items ≡ text.now) }
{
    field.clear();
    field.extend_from_slice(text)
}

/// Puts the fields of a record in the place of as many others.
fn refill(fields: &mut Vec<Vec<u8>>, row: &ByteRecord) -> Result<(), AllocError>
    requires { length fields.old.items ≡ length (row_fields row.now) }
    ensures { OnOk result (fields_of fields.new.items ≡ row_fields row.now) }
{
    for i in 0..fields.len() {
        if let Some(text) = row.get(i) {
            put(&mut fields[i], text)?;
        }
    }
    Ok(())
}

/// What a record says, if it says something. Its fields are put in the place of those of the one before, so that few take memory.
fn item_of(row: &ByteRecord, fields: &mut Vec<Vec<u8>>) -> Result<Option<Item>, AllocError>
    requires { length fields.old.items ≡ 10 }
    ensures said { IfOk result (λ found. MatchOption found (¬ SaysSome (row_fields row.now)) (λ item. IsTen (row_fields row.now) × Says (row_fields row.now) item)) }
    ensures ten { OnOk result (length fields.new.items ≡ 10) }
{
    if row.len() != fields.len() {
        return Ok(None);
    }
    refill(fields, row)?;
    let record: &[Vec<u8>; 10] = fields.as_slice().as_array().unwrap();
    Ok(read_item(record))
}

/// What the next record says, or that it says nothing, or that the text has ended. The record isn't kept.
fn next_said<R: Read>(
    text: &mut Reader<R>,
    row: &mut ByteRecord,
    fields: &mut Vec<Vec<u8>>,
) -> Result<Said, ImportFault>
    requires plain { IsPlain text.old }
    requires fields { length fields.old.items ≡ 10 }
    ensures said { IfOk result (SaysNext R.remaining text.old text.new) }
    ensures ten { OnOk result (length fields.new.items ≡ 10) }
{
    match text.read_byte_record(row) {
        Ok(true) => match item_of(row, fields)? {
            Some(item) => Ok(Said::Item(item)),
            None => Ok(Said::Nothing),
        },
        Ok(false) => Ok(Said::End),
        Err(e) => match fault_of(&e) {
            Some(fault) => Err(fault),
            None => Ok(Said::Nothing),
        },
    }
}

/// Ten empty fields.
fn no_fields(alloc: Global) -> Result<Vec<Vec<u8>>, AllocError>
    ensures { IfOk result (λ fields. length fields.items ≡ 10) }
{
    let mut fields = Vec::with_capacity(alloc, 10)?;
    for _ in 0..10u32 {
        fields.push(Vec::new(alloc))?;
    }
    Ok(fields)
}

/// What the records from here to the end of the text say, one item each.
// A record becomes its item at once, which takes less memory. One that says nothing ends it, since there is no plan then.
fn items_left<R: Read>(
    alloc: Global,
    text: &mut Reader<R>,
) -> Result<Option<Vec<Item>>, ImportFault>
    requires plain { IsPlain text.old }
    requires start { reader_state text.old ≡ st.StartRecord }
    ensures said { IfOk result (λ found. IfSome (source_of R.remaining text.old)
        (λ bytes. IsSaidIn bytes (option_map (λ v. v.items) found))) }
    ensures legal { IfOk result (λ found. IfSome found (λ items. All IsItem items.items)) }
{
    let mut row = ByteRecord::new(alloc);
    let mut fields = no_fields(alloc)?;
    let mut items = Vec::new(alloc);
    for _ in 0..u64::MAX {
        match next_said(text, &mut row, &mut fields)? {
            Said::Item(item) => items.push(item)?,
            Said::Nothing => return Ok(None),
            Said::End => return Ok(Some(items)),
        }
    }
    Err(ImportFault::Memory)
}

/// What the records of all that a source gives say.
fn items_of_source<R: Read + Drop>(
    alloc: Global,
    source: R,
) -> Result<Option<Vec<Item>>, ImportFault>
    ensures said { IfOk result (λ found. IfSome (R.remaining source)
        (λ text. IsSaidIn (strip_bom text) (option_map (λ v. v.items) found))) }
    ensures legal { IfOk result (λ found. IfSome found (λ items. All IsItem items.items)) }
{
    let mut text = ReaderBuilder::new()
        .has_headers(false)
        .from_reader(alloc, source);
    items_left(alloc, &mut text)
}

/// What the records that are left of a watched text say, of which no fault is known yet.
// Whether the reader failed is asked of it alone, since no clause ties an error of `csv` to it.
fn items_of_watched<R: Read>(
    alloc: Global,
    reader: &mut Watched<R>,
) -> Result<Option<Vec<Item>>, ImportFault>
    requires fresh { failed_of reader.old ≡ false }
    ensures said { IfOk result (λ found. IfSome (R.remaining (inner_of reader.old))
        (λ text. IsSaidIn (strip_bom text) (option_map (λ v. v.items) found))) }
    ensures legal { IfOk result (λ found. IfSome found (λ items. All IsItem items.items)) }
    ensures reader_fault { (result ≡ Err ImportFault.Reader) ↔ (failed_of reader.new ≡ true) }
{
    let found = items_of_source(alloc, &mut *reader);
    if reader.failed() {
        return Err(ImportFault::Reader);
    }
    match found {
        Ok(items) => Ok(items),
        Err(_) => Err(ImportFault::Memory),
    }
}

/// What the records of a text say, one item each; none where a record says nothing. Faults of earlier calls are forgotten.
fn read_items<R: Read>(
    alloc: Global,
    reader: &mut Watched<R>,
) -> Result<Option<Vec<Item>>, ImportFault>
    ensures said { IfOk result (λ found. IfSome (R.remaining (inner_of reader.old))
        (λ text. IsSaidIn (strip_bom text) (option_map (λ v. v.items) found))) }
    ensures legal { IfOk result (λ found. IfSome found (λ items. All IsItem items.items)) }
    ensures reader_fault { (result ≡ Err ImportFault.Reader) ↔ (failed_of reader.new ≡ true) }
{
    reader.clear();
    items_of_watched(alloc, reader)
}

/// The plan that a text denotes, if it denotes one. The text is all that the reader gives: records of ten fields, without
/// a header; a byte order mark at its front is left out. A text that can't be read to its end is a fault: `Reader` exactly
/// where a read failed, or else `Memory`. (The records and what they denote: this project's own.)
pub fn read_plan<R: Read>(
    alloc: Global,
    reader: &mut Watched<R>,
) -> Result<Option<PlanDraft>, ImportFault>
    ensures plan { IfOk result (λ found. IfSome (R.remaining (inner_of reader.old)) (λ text.
        MatchOption found ((P : Contents) → ¬ TextDenotes text P) (λ draft. TextDenotes text draft))) }
    ensures reader_fault { (result ≡ Err ImportFault.Reader) ↔ (failed_of reader.new ≡ true) }
{
    let Some(items) = read_items(alloc, reader)? else {
        return Ok(None);
    };
    match draft_of_items(alloc, &items) {
        Ok(draft) => Ok(draft),
        Err(_) => Err(ImportFault::Memory),
    }
}

/// The occurrence that a text denotes, with its operations and pairs, if it denotes one. The text is read as that of a plan,
/// and its faults are the same. (The records and what they denote: this project's own.)
pub fn read_occurrence<R: Read>(
    alloc: Global,
    reader: &mut Watched<R>,
) -> Result<Option<Addition>, ImportFault>
    ensures addition { IfOk result (λ found. IfSome (R.remaining (inner_of reader.old)) (λ text.
        MatchOption found ((s : AddedParts) → ¬ TextDenotesAddition text s) (λ a. TextDenotesAddition text a))) }
    ensures reader_fault { (result ≡ Err ImportFault.Reader) ↔ (failed_of reader.new ≡ true) }
{
    let Some(items) = read_items(alloc, reader)? else {
        return Ok(None);
    };
    match addition_of_items(alloc, &items) {
        Ok(addition) => Ok(addition),
        Err(_) => Err(ImportFault::Memory),
    }
}

/// The extension that a text denotes, if it denotes one: any number of occurrences with their operations and pairs, none
/// where the text is empty. The text is read as that of a plan, and its faults are the same. (The records and what they
/// denote: this project's own.)
pub fn read_extension<R: Read>(
    alloc: Global,
    reader: &mut Watched<R>,
) -> Result<Option<Extension>, ImportFault>
    ensures extension { IfOk result (λ found. IfSome (R.remaining (inner_of reader.old)) (λ text.
        MatchOption found ((s : AddedParts) → ¬ TextDenotesExtension text s) (λ a. TextDenotesExtension text a))) }
    ensures reader_fault { (result ≡ Err ImportFault.Reader) ↔ (failed_of reader.new ≡ true) }
{
    let Some(items) = read_items(alloc, reader)? else {
        return Ok(None);
    };
    match extension_of_items(alloc, &items) {
        Ok(extension) => Ok(extension),
        Err(_) => Err(ImportFault::Memory),
    }
}
