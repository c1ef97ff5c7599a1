// What the eleven tables hold, as one text.
use sqlite::types::ValueRef;
use sqlite::{Alter, Connection, Row};
use std::alloc::{AllocError, Global};

// The rows of each table, in the order of its key.
const QUERIES: [&str; 11] = [
    "SELECT * FROM meta ORDER BY id",
    "SELECT * FROM workstation ORDER BY name",
    "SELECT * FROM interval ORDER BY ws, start",
    "SELECT * FROM resource ORDER BY name",
    "SELECT * FROM occurrence ORDER BY app, ia",
    "SELECT * FROM operation ORDER BY app, ia, num",
    "SELECT * FROM dependency ORDER BY papp, pia, pnum, sapp, sia, snum",
    "SELECT * FROM need ORDER BY app, ia, num, resource",
    "SELECT * FROM receipt ORDER BY tracker",
    "SELECT * FROM quantity ORDER BY resource",
    "SELECT * FROM amount ORDER BY app, ia, num, resource",
];

// Adds a number.
fn add_number(alloc: Global, text: &mut Vec<u8>, number: i64) -> Result<(), AllocError> {
    let digits = format!(in alloc; "{number}")?;
    text.extend_from_slice(digits.as_bytes())
}

// Adds a value and a bar.
fn add_value(alloc: Global, text: &mut Vec<u8>, value: ValueRef<'_>) -> Result<(), AllocError> {
    match value {
        ValueRef::Null => text.extend_from_slice(b"null")?,
        ValueRef::Int(number) => add_number(alloc, text, number)?,
        ValueRef::Real(_) => text.extend_from_slice(b"real")?,
        ValueRef::Text(bytes) | ValueRef::Blob(bytes) => text.extend_from_slice(bytes)?,
    }
    text.push(b'|')?;
    Ok(())
}

// Adds a row, a line.
fn add_row(alloc: Global, text: &mut Vec<u8>, row: &Row) -> Result<(), AllocError> {
    for at in 0..row.column_count() {
        if let Ok(value) = row.get_ref(at) {
            add_value(alloc, text, value)?;
        }
    }
    text.push(b'\n')?;
    Ok(())
}

// Adds rows.
fn add_rows(alloc: Global, text: &mut Vec<u8>, rows: &[Row]) -> Result<(), AllocError> {
    for row in rows {
        add_row(alloc, text, row)?;
    }
    Ok(())
}

// Adds what a query shows, or that the table lacks.
fn add_table<S: Alter>(
    alloc: Global,
    text: &mut Vec<u8>,
    conn: &mut Connection<S>,
    query: &str,
) -> Result<(), AllocError> {
    match conn.query_all(query, &[]) {
        Ok(rows) => add_rows(alloc, text, &rows),
        Err(_) => text.extend_from_slice(LACKS),
    }
}

// What stands for a table that can't be read.
const LACKS: &[u8] = b"lacks\n";

/// What the eleven tables hold, each by the rows that a query shows.
pub fn tables_text<S: Alter>(
    alloc: Global,
    conn: &mut Connection<S>,
) -> Result<Vec<u8>, AllocError> {
    let mut text = Vec::new(alloc);
    for query in &QUERIES {
        add_table(alloc, &mut text, conn, query)?;
    }
    Ok(text)
}

/// Whether a text tells that no table is there.
pub fn lacks_all(text: &[u8]) -> bool {
    text.len() == LACKS.len() * QUERIES.len() && text.starts_with(LACKS)
}
