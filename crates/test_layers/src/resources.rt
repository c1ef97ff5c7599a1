//! The night of payroll, and texts like it: those of no plan, and two that hold as much as they may.
use super::tables::{all_so, bytes_of};
use super::words::is_told_of_plan;
use plan_basics::Watched;
use plan_import::read_plan;
use std::alloc::{AllocError, Global};

// A night of payroll: a set-up, two runs of which the second needs the customers' file for itself, a check, and a printing.
const PAYROLL: &str = "W,CPU1,A,,,,,,,
W,SETP,S,,,,,,,
W,PRT1,C,,,,,,,
W,DUMM,N,,,,,,,
I,CPU1,2024-03-01T22:00,2024-03-02T06:00,2,3,0,,,
I,SETP,2024-03-01T22:00,2024-03-02T02:00,1,0,0,,,
X,CUSTFILE,Y,,,,,,,
O,PAYROLL,2024-03-01T22:00,5,2024-03-02T05:00,,,,,
P,PAYROLL,2024-03-01T22:00,5,SETP,10,0,0,,
P,PAYROLL,2024-03-01T22:00,10,CPU1,30,0,0,,
P,PAYROLL,2024-03-01T22:00,20,CPU1,60,0,0,,
P,PAYROLL,2024-03-01T22:00,30,DUMM,1,0,0,,
P,PAYROLL,2024-03-01T22:00,40,PRT1,20,0,0,,
N,PAYROLL,2024-03-01T22:00,20,CUSTFILE,X,K,,,
D,PAYROLL,2024-03-01T22:00,5,PAYROLL,2024-03-01T22:00,10,,,
D,PAYROLL,2024-03-01T22:00,10,PAYROLL,2024-03-01T22:00,20,,,
D,PAYROLL,2024-03-01T22:00,20,PAYROLL,2024-03-01T22:00,30,,,
D,PAYROLL,2024-03-01T22:00,30,PAYROLL,2024-03-01T22:00,40,,,
";

// Whether a text denotes a plan.
fn is_plan(alloc: Global, text: &[u8]) -> Option<bool> {
    match read_plan(alloc, &mut Watched::new(text)) {
        Ok(found) => Some(found.is_some()),
        Err(_) => None,
    }
}

// Whether the night with these lines more denotes a plan. A tilde in them stands for a byte of no character.
fn is_plan_with(alloc: Global, lines: &str) -> Option<bool> {
    match bytes_of(alloc, PAYROLL, lines) {
        Ok(text) => is_plan(alloc, &text),
        Err(_) => None,
    }
}

const SIXTEEN: &str = "01 02 03 04 05 06 07 08 09 10 11 12 13 14 15 16";

const TWENTY: &str = "01 02 03 04 05 06 07 08 09 10 11 12 13 14 15 16 17 18 19 20";

// A text once for each of these numbers, which stands in place of a mark.
fn each_of(alloc: Global, numbers: &str, text: &str, mark: &str) -> Result<String, AllocError> {
    let mut all = String::new(alloc);
    for number in numbers.split(' ') {
        all.push_str(&text.replace(alloc, mark, number)?)?;
    }
    Ok(all)
}

// 400 intervals of CPU1 that don't overlap, and not with that of the night.
fn intervals(alloc: Global) -> Result<String, AllocError> {
    let interval = "I,CPU1,2024-02-DDTHH:00,2024-02-DDTHH:30,1,0,0,,,\n";
    let day = each_of(alloc, TWENTY, interval, "HH")?;
    each_of(alloc, TWENTY, &day, "DD")
}

// 16 needs of the operation of the night that has one already, and what it needs.
fn needs(alloc: Global) -> Result<String, AllocError> {
    let need = "N,PAYROLL,2024-03-01T22:00,20,TAPE.DD,S,F,,,\nX,TAPE.DD,Y,,,,,,,\n";
    each_of(alloc, SIXTEEN, need, "DD")
}

// Whether the night with all of these lines but the first denotes a plan, and with all of them none.
fn is_full_with(alloc: Global, lines: &str) -> Option<bool> {
    let (_, but_the_first) = lines.split_once('\n')?;
    Some(is_plan_with(alloc, but_the_first)? && !is_plan_with(alloc, lines)?)
}

// The same of lines that were made, and that these words are told of the night with all of them.
fn is_full(alloc: Global, made: Result<String, AllocError>, words: &str) -> bool {
    match made {
        Ok(lines) => {
            is_full_with(alloc, &lines) == Some(true)
                && is_told_of_plan(alloc, PAYROLL, &lines, words)
        }
        Err(_) => false,
    }
}

const INTERVALS: &str = "line 5: open interval: workstation CPU1 has 401: it may have at most 400|";

const NEEDS: &str =
    "line 14: need: operation PAYROLL/2024-03-01T22:00/020 has 17: it may have at most 16|";

/// A workstation has 400 intervals and no more, an operation 16 needs, and a name no other bytes than it may.
pub fn as_much_as_may_be_and_more(alloc: Global) -> Result<(), &'static str> {
    all_so(&[
        (is_full(alloc, intervals(alloc), INTERVALS), "400 intervals"),
        (is_full(alloc, needs(alloc), NEEDS), "16 needs"),
        (
            is_plan_with(alloc, "W,CPU2,A,,,,,,,|") == Some(true),
            "a name",
        ),
        (
            is_plan_with(alloc, "W,CP~2,A,,,,,,,|") == Some(false),
            "the byte 255 in a name",
        ),
    ])
}
