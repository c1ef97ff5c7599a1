// What the words of a night name.
use super::words::cut;
use plan_basics::{AppId, Moment, OccKey, OpKey, ResName, minute_of_text};

// The text of a moment: whole, or the time of one of the night, from 20:00 on of 2024-03-01, before 10:00 of 2024-03-02.
fn moment_text(text: &str) -> Option<[u8; 16]> {
    let mut full = *b"2024-03-01T22:00";
    if text.len() == 16 {
        full.copy_from_slice(text.as_bytes());
    } else if text.len() == 5 {
        full[11..].copy_from_slice(text.as_bytes());
        full[9] = day_of(text)?;
    } else {
        return None;
    }
    Some(full)
}

// The last digit of the day of a time of the night.
fn day_of(time: &str) -> Option<u8> {
    if time.starts_with('2') {
        Some(b'1')
    } else if time.starts_with('0') {
        Some(b'2')
    } else {
        None
    }
}

/// The minute of such a text.
pub fn minute(text: &str) -> Option<i64> {
    minute_of_text(&moment_text(text)?)
}

/// An occurrence: by its application, where its input arrival is 22:00, or by the text of its key.
pub fn occurrence(name: &str) -> Option<OccKey> {
    if name.contains('/') {
        return OccKey::from_text(name.as_bytes());
    }
    Some(OccKey {
        app: AppId::from_text(name.as_bytes())?,
        arrival: Moment::new(minute("22:00")?)?,
    })
}

/// An operation: by its number where it is PAYROLL's, as `AUDIT.10` where it is another's, or by the text of its key.
pub fn operation(name: &str) -> Option<OpKey> {
    if name.contains('/') {
        return OpKey::from_text(name.as_bytes());
    }
    let (application, number) = cut(name, ".").unwrap_or(("PAYROLL", name));
    Some(OpKey {
        occurrence: occurrence(application)?,
        number: number.parse().ok()?,
    })
}

pub fn resource(name: &str) -> Option<ResName> {
    ResName::from_text(name.as_bytes())
}
