//! Texts of moments, and their minutes.
use super::tables::part;
use plan_basics::{minute_of_text, minute_text};

// Texts, the minute that each tells, and how that is printed: as hyphens where no plan may have it.
const MINUTES: &str = "1972-01-01T00:00;0;1972-01-01T00:00
1971-12-31T23:59;-1;----------------
1971-12-31T23:50;-10;----------------
2071-12-31T23:59;52595999;2071-12-31T23:59
2072-01-01T00:00;52596000;----------------
2024-03-01T22:00;27437640;2024-03-01T22:00
0000-01-01T00:00;-1037171520;----------------
0000-02-29T00:00;-1037086560;----------------
9999-12-31T23:59;4222320479;----------------
2024-02-30T00:00;none;
1900-02-29T00:00;none;
2024-03-01T24:00;none;
2024-03-01T22:60;none;
2024-03-01 22:00;none;
2024-03-01T22:00Z;none;
2024-3-1;none;";

// Whether a minute is printed so, where there is one.
fn is_printed(minute: Option<i64>, text: &str) -> bool {
    match minute {
        Some(minute) => minute_text(minute).as_slice() == text.as_bytes(),
        None => text.is_empty(),
    }
}

// Whether the text of a row tells its minute, and that is printed so.
fn is_told(row: &str) -> bool {
    let minute = part(row, 1).parse::<i64>().ok();
    minute_of_text(part(row, 0).as_bytes()) == minute && is_printed(minute, part(row, 2))
}

/// The minutes of texts, and how they are printed.
pub fn minutes_and_their_texts() -> Result<(), &'static str> {
    for row in MINUTES.lines() {
        if !is_told(row) {
            return Err(row);
        }
    }
    Ok(())
}
