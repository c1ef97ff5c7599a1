// Rows of tables, and their parts.
use std::alloc::{AllocError, Global};

/// What is to hold, and what each is; the first that doesn't is the error.
pub fn all_so(claims: &[(bool, &'static str)]) -> Result<(), &'static str> {
    for (holds, what) in claims {
        if !*holds {
            return Err(what);
        }
    }
    Ok(())
}

/// One of the parts of a row, with semicolons between them.
pub fn part(row: &str, place: usize) -> &str {
    row.split(';').nth(place).unwrap_or("")
}

/// The bytes of a text behind another one. A bar in it stands for a line's end, and a tilde for a byte of no character.
pub fn bytes_of(alloc: Global, front: &str, text: &str) -> Result<Vec<u8>, AllocError> {
    let mut bytes = front.as_bytes().to_vec(alloc)?;
    for byte in text.as_bytes() {
        bytes.push(meant(*byte))?;
    }
    Ok(bytes)
}

// The byte that a byte of a table stands for.
fn meant(byte: u8) -> u8 {
    match byte {
        b'|' => b'\n',
        b'~' => 255,
        _ => byte,
    }
}
