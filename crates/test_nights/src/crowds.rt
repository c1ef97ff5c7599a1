// Occurrences J1, J2 and so on, each a chain of operations of one minute on SETP.
use super::words::cut;
use std::alloc::AllocError;

// The times of each.
const TIMES: &str = "2024-03-01T22:00";

// Puts behind a text an operation of a chain, and its pair with the one before it.
fn push_operation(text: &mut String, chain: u16, number: u16) -> Result<(), AllocError> {
    write!(text, "P,J{chain},{TIMES},{number},SETP,1,0,0,,\n")?;
    if number == 1 {
        return Ok(());
    }
    let before = number.saturating_sub(1);
    write!(
        text,
        "D,J{chain},{TIMES},{before},J{chain},{TIMES},{number},,,\n"
    )
}

// Puts behind a text a chain of so many operations.
fn push_chain(text: &mut String, chain: u16, operations: u16) -> Result<(), AllocError> {
    write!(text, "O,J{chain},{TIMES},5,2024-03-02T05:00,,,,,\n")?;
    for number in 1..=operations {
        push_operation(text, chain, number)?;
    }
    Ok(())
}

/// Puts behind a text so many chains, and so many operations of each: both counts, with a star between.
pub fn push_chains(text: &mut String, counts: &str) -> Option<()> {
    let (chains, operations) = cut(counts, "*")?;
    let chains: u16 = chains.parse().ok()?;
    let operations: u16 = operations.parse().ok()?;
    for chain in 1..=chains {
        push_chain(text, chain, operations).ok()?;
    }
    Some(())
}
