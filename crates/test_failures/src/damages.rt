// Tables that are damaged: no desk is opened over them, and they stay as they are.
use super::FAILED;
use super::cases::bytes_after;
use super::deeds::Deed;
use super::disks::{Bytes, Stop, done_on};
use super::replies::Came;
use super::scripts::SCRIPT;
use std::alloc::Global;

// Changes of the tables after the script, each of which damages them.
const DAMAGES: &str = "sql UPDATE operation SET status = 'R' WHERE num = 20
sql UPDATE operation SET waiting = 0 WHERE num = 30
sql UPDATE operation SET latest = latest + 1 WHERE num = 5
sql UPDATE operation SET mark = 'none' WHERE num = 5
sql UPDATE occurrence SET status = 'W' WHERE app = 'PAYROLL'
sql UPDATE operation SET held = 2 WHERE num = 5
sql UPDATE need SET mode = 'Y' WHERE app = 'PAYROLL'
sql INSERT INTO dependency SELECT app, ia, 40, app, ia, 5 FROM occurrence WHERE app = 'PAYROLL'
sql INSERT INTO meta (id, version, loaded, clock) VALUES (2, 2, 1, 0)
sql INSERT INTO occurrence SELECT 'EMPTY', ia, priority, deadline, 'W' FROM occurrence WHERE app = 'PAYROLL'
sql UPDATE meta SET version = 3
sql INSERT INTO quantity VALUES ('CUSTFILE', 999999)
sql INSERT INTO amount SELECT app, ia, num, resource, 1 FROM need WHERE app = 'PAYROLL'
sql DROP TABLE need
sql UPDATE receipt SET number = 0";

// The change by which the receipt gets a text of so many bytes.
fn receipt_of(alloc: Global, length: usize) -> Option<String> {
    let digits = "20".repeat(alloc, length).ok()?;
    format!(in alloc; "sql UPDATE receipt SET request = x'{digits}'").ok()
}

// What comes of opening a desk over tables once they are changed, if they hold the same after that.
fn found(alloc: Global, files: &Bytes, change: &str) -> Option<Came> {
    let changed = bytes_after(alloc, files, change, false)?;
    let deed = Deed::GoneOn("open", 0);
    let opened = done_on(alloc, &changed, Stop::never(false), &deed)?.played;
    match (opened.texts.first(), opened.texts.last()) {
        (Some(before), Some(after)) if before.as_slice() == after.as_slice() => Some(opened.came),
        _ => None,
    }
}

// Each change of a text damages the tables.
fn each_damages(alloc: Global, files: &Bytes) -> Result<(), &'static str> {
    for change in DAMAGES.lines() {
        if found(alloc, files, change) != Some(Came::Damaged) {
            return Err(change);
        }
    }
    Ok(())
}

/// Sixteen damages; and the tables without one, and with the longest text of a receipt, are opened.
pub fn damaged_tables_are_not_opened(alloc: Global) -> Result<(), &'static str> {
    let files = bytes_after(alloc, &Bytes::none(alloc), SCRIPT, false).ok_or(FAILED)?;
    let longest = receipt_of(alloc, 65_536).ok_or(FAILED)?;
    let longer = receipt_of(alloc, 65_537).ok_or(FAILED)?;
    if found(alloc, &files, "") != Some(Came::Done) {
        return Err("the tables after the script");
    }
    if found(alloc, &files, &longest) != Some(Came::Done) {
        return Err("a receipt's text of 65536 bytes");
    }
    if found(alloc, &files, &longer) != Some(Came::Damaged) {
        return Err("a receipt's text of 65537 bytes");
    }
    each_damages(alloc, &files)
}
