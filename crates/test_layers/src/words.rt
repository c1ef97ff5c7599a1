//! What is told of texts with each kind of fault. A row of a table has what stands behind a text, and what is told of both,
//! with a bar behind each fault.
use super::tables::{all_so, bytes_of, part};
use record_faults::{Fault, Group, RecordFault};
use std::alloc::{AllocError, Global};
use text_faults::{
    AddedText, AddedTextFaults, TextFaults, added_fault_text, fault_text, faults_of_added_text,
    faults_of_text,
};

fn plan_words(alloc: Global, told: &TextFaults) -> Result<String, AllocError> {
    let mut words = String::new(alloc);
    for fault in &told.faults {
        words.push_str(&fault_text(alloc, fault, told)?)?;
        words.push('|')?;
    }
    Ok(words)
}

// What is told of a plan's text.
fn told_of_plan(alloc: Global, text: &[u8]) -> Option<String> {
    match faults_of_text(alloc, text) {
        Ok(told) => plan_words(alloc, &told).ok(),
        Err(_) => None,
    }
}

fn added_words(alloc: Global, told: &AddedTextFaults) -> Result<String, AllocError> {
    let mut words = String::new(alloc);
    for fault in &told.faults {
        words.push_str(&added_fault_text(alloc, fault, told)?)?;
        words.push('|')?;
    }
    Ok(words)
}

// What is told of the text of an addition or an extension.
fn told_of_added(alloc: Global, added: AddedText, text: &[u8]) -> Option<String> {
    match faults_of_added_text(alloc, added, text) {
        Ok(told) => added_words(alloc, &told).ok(),
        Err(_) => None,
    }
}

// Whether something was written, and is this.
fn is(written: &Option<String>, expected: &str) -> bool {
    match written {
        Some(text) => text.as_str() == expected,
        None => false,
    }
}

// What is told of a text that adds to a plan so, or is a plan's.
fn told_of(alloc: Global, added: Option<AddedText>, text: &[u8]) -> Option<String> {
    match added {
        Some(added) => told_of_added(alloc, added, text),
        None => told_of_plan(alloc, text),
    }
}

// Whether these words are told of a text behind another one.
fn is_told(alloc: Global, added: Option<AddedText>, front: &str, text: &str, words: &str) -> bool {
    match bytes_of(alloc, front, text) {
        Ok(text) => is(&told_of(alloc, added, &text), words),
        Err(_) => false,
    }
}

/// Whether these words are told of a plan's text behind another one.
pub fn is_told_of_plan(alloc: Global, front: &str, text: &str, words: &str) -> bool {
    is_told(alloc, None, front, text, words)
}

// Goes over the rows of a table; the first that tells something else is the error.
fn each(
    alloc: Global,
    added: Option<AddedText>,
    front: &str,
    rows: &'static str,
) -> Result<(), &'static str> {
    for row in rows.lines() {
        if !is_told(alloc, added, front, part(row, 0), part(row, 1)) {
            return Err(row);
        }
    }
    Ok(())
}

// A plan, whose last record begins in line 6.
const PLAN: &str = "W,CPU1,A,,,,,,,
I,CPU1,2024-03-01T22:00,2024-03-02T06:00,2,0,0,,,
O,DAILY,2024-03-01T22:00,5,2024-03-02T05:00,,,,,
P,DAILY,2024-03-01T22:00,10,CPU1,30,0,0,,
P,DAILY,2024-03-01T22:00,20,CPU1,60,0,0,,
D,DAILY,2024-03-01T22:00,10,DAILY,2024-03-01T22:00,20,,,
";

// What follows the plan, and what is told.
const AFTER: &str = ";
W,CPU2,A,,,,,,|;line 7: 9 fields: a record has 10|
Z,CPU2,A,,,,,,,|;line 7: unknown kind: the first field is W, I, X, O, P, D or N|
W,cpu2,A,,,,,,,|;line 7: workstation: name: must be a name of 1 to 4 characters of A-Z, 0-9, @, # and $|
P,DAILY,2024-03-01T22:00,256,CPU1,30,0,0,,|;line 7: operation: number: must be a whole number from 1 to 255, without leading zeros|
W,CPU2,A,x,,,,,,|;line 7: workstation: field 4: must be empty|
I,CPU1,2024-03-03T22:00,2024-03-03T22:00,2,0,0,,,|;line 7: open interval: end: must be after the first minute|
\r|\"W\",\"CPU1\",S,,,,,,,\r|;line 8: workstation CPU1: given before, in line 1: each is given once|
D,DAILY,2024-03-01T22:00,10,DAILY,2024-03-01T22:00,30,,,|;line 7: operation DAILY/2024-03-01T22:00/030: no record defines it|
D,DAILY,2024-03-01T22:00,30,DAILY,2024-03-01T22:00,30,,,|;line 7: operation DAILY/2024-03-01T22:00/030: no record defines it|
N,DAILY,2024-03-01T22:00,10,TAPE,S,K,,,|;line 7: special resource TAPE: no record defines it|
O,WEEKLY,2024-03-01T22:00,5,2024-03-02T05:00,,,,,|;line 7: occurrence: it has no operation: it must have at least one|
I,CPU1,2024-03-02T05:59,2024-03-02T08:00,2,0,0,,,|;line 7: open interval: overlaps that of line 2: intervals of a workstation may only touch|
I,CPU1,2024-03-02T06:00,2024-03-02T08:00,2,0,0,,,|;
D,DAILY,2024-03-01T22:00,20,DAILY,2024-03-01T22:00,10,,,|;line 7: dependency: closes a path that returns: no path may: DAILY/2024-03-01T22:00/020, DAILY/2024-03-01T22:00/010|
O,WEEKLY,2024-03-01T22:00,5,2024-03-02T05:00,,,,,|P,WEEKLY,2024-03-01T22:00,1,CPU1,30,0,0,,|D,DAILY,2024-03-01T22:00,20,WEEKLY,2024-03-01T22:00,1,,,|D,WEEKLY,2024-03-01T22:00,1,DAILY,2024-03-01T22:00,10,,,|;line 10: dependency: closes a path that returns: no path may: WEEKLY/2024-03-01T22:00/001, DAILY/2024-03-01T22:00/010, DAILY/2024-03-01T22:00/020|
W,CPU1,A,,,,,,,|\"W\",\"CP|U\",A,,,,,,,|I,CPU1,2024-03-01T21:00,2024-03-01T22:01,2,0,0,,,|P,DAILY,2024-03-01T22:00,30,CPU9,30,0,0,,|D,DAILY,2024-03-01T22:00,10,DAILY,2024-03-01T22:00,40,,,|;line 7: workstation CPU1: given before, in line 1: each is given once|line 8: workstation: name: must be a name of 1 to 4 characters of A-Z, 0-9, @, # and $|line 10: open interval: overlaps that of line 2: intervals of a workstation may only touch|line 11: workstation CPU9: no record defines it|line 12: operation DAILY/2024-03-01T22:00/040: no record defines it|
";

// Whole texts, and what is told.
const WHOLE: &str =
    ";line 1: workstation: the plan has none: it must have at least one|line 1: occurrence: the plan has none: it must have at least one|
\u{feff}W,CPU1,A,,,,,,,\r|W,CPU1,A,,,,,,,\r|;line 2: workstation CPU1: given before, in line 1: each is given once|line 2: occurrence: the plan has none: it must have at least one|
not a plan;line 1: 1 fields: a record has 10|line 1: workstation: the plan has none: it must have at least one|line 1: occurrence: the plan has none: it must have at least one|
";

// Records of which one field each isn't what it may be, and what is told of it.
const FIELDS: &str = "W,CPU2,Q,,,,,,,|;line 7: workstation: attribute: must be A, S, C or N|
I,cpu1,2024-03-03T22:00,2024-03-03T23:00,2,0,0,,,|;line 7: open interval: workstation: must be a name of 1 to 4 characters of A-Z, 0-9, @, # and $|
I,CPU1,2024-03-03,2024-03-03T23:00,2,0,0,,,|;line 7: open interval: first minute: must be a moment YYYY-MM-DDTHH:MM|
I,CPU1,2024-03-03T22:00,23:00,2,0,0,,,|;line 7: open interval: end: must be a moment YYYY-MM-DDTHH:MM|
I,CPU1,2024-03-03T22:00,2024-03-03T23:00,100,0,0,,,|;line 7: open interval: servers: must be a whole number from 0 to 99, without leading zeros|
I,CPU1,2024-03-03T22:00,2024-03-03T23:00,2,100,0,,,|;line 7: open interval: R1: must be a whole number from 0 to 99, without leading zeros|
I,CPU1,2024-03-03T22:00,2024-03-03T23:00,2,0,-1,,,|;line 7: open interval: R2: must be a whole number from 0 to 99, without leading zeros|
I,CPU1,2024-03-03T22:00,2024-03-03T23:00,2,0,0,0,,|;line 7: open interval: field 8: must be empty|
X,tape,Y,,,,,,,|;line 7: special resource: name: must be a name of 1 to 44 characters of A-Z, 0-9, @, #, $, . and -|
X,TAPE,J,,,,,,,|;line 7: special resource: available: must be Y or N|
O,daily,2024-03-01T22:00,5,2024-03-02T05:00,,,,,|;line 7: occurrence: application: must be a name of 1 to 16 characters of A-Z, 0-9, @, # and $|
O,WEEKLY,,5,2024-03-02T05:00,,,,,|;line 7: occurrence: input arrival: must be a moment YYYY-MM-DDTHH:MM|
O,WEEKLY,2024-03-01T22:00,0,2024-03-02T05:00,,,,,|;line 7: occurrence: priority: must be a whole number from 1 to 9, without leading zeros|
O,WEEKLY,2024-03-01T22:00,5,,,,,,|;line 7: occurrence: deadline: must be a moment YYYY-MM-DDTHH:MM|
P,,2024-03-01T22:00,30,CPU1,30,0,0,,|;line 7: operation: application: must be a name of 1 to 16 characters of A-Z, 0-9, @, # and $|
P,DAILY,2024-02-30T22:00,30,CPU1,30,0,0,,|;line 7: operation: input arrival: must be a moment YYYY-MM-DDTHH:MM|
P,DAILY,2024-03-01T22:00,30,CPU10,30,0,0,,|;line 7: operation: workstation: must be a name of 1 to 4 characters of A-Z, 0-9, @, # and $|
P,DAILY,2024-03-01T22:00,30,CPU1,0,0,0,,|;line 7: operation: duration: must be a whole number from 1 to 5999, without leading zeros|
P,DAILY,2024-03-01T22:00,30,CPU1,30,100,0,,|;line 7: operation: R1: must be a whole number from 0 to 99, without leading zeros|
P,DAILY,2024-03-01T22:00,30,CPU1,30,0,x,,|;line 7: operation: R2: must be a whole number from 0 to 99, without leading zeros|
P,DAILY,2024-03-01T22:00,30,CPU1,30,0,0,now,|;line 7: operation: not-before: must be a moment YYYY-MM-DDTHH:MM, or empty|
P,DAILY,2024-03-01T22:00,30,CPU1,30,0,0,,now|;line 7: operation: deadline: must be a moment YYYY-MM-DDTHH:MM, or empty|
D,daily,2024-03-01T22:00,10,DAILY,2024-03-01T22:00,20,,,|;line 7: dependency: predecessor's application: must be a name of 1 to 16 characters of A-Z, 0-9, @, # and $|
D,DAILY,22:00,10,DAILY,2024-03-01T22:00,20,,,|;line 7: dependency: predecessor's input arrival: must be a moment YYYY-MM-DDTHH:MM|
D,DAILY,2024-03-01T22:00,0,DAILY,2024-03-01T22:00,20,,,|;line 7: dependency: predecessor's number: must be a whole number from 1 to 255, without leading zeros|
D,DAILY,2024-03-01T22:00,10,daily,2024-03-01T22:00,20,,,|;line 7: dependency: successor's application: must be a name of 1 to 16 characters of A-Z, 0-9, @, # and $|
D,DAILY,2024-03-01T22:00,10,DAILY,22:00,20,,,|;line 7: dependency: successor's input arrival: must be a moment YYYY-MM-DDTHH:MM|
D,DAILY,2024-03-01T22:00,10,DAILY,2024-03-01T22:00,0,,,|;line 7: dependency: successor's number: must be a whole number from 1 to 255, without leading zeros|
N,daily,2024-03-01T22:00,10,TAPE,S,K,,,|;line 7: need: application: must be a name of 1 to 16 characters of A-Z, 0-9, @, # and $|
N,DAILY,22:00,10,TAPE,S,K,,,|;line 7: need: input arrival: must be a moment YYYY-MM-DDTHH:MM|
N,DAILY,2024-03-01T22:00,010,TAPE,S,K,,,|;line 7: need: number: must be a whole number from 1 to 255, without leading zeros|
N,DAILY,2024-03-01T22:00,10,tape,S,K,,,|;line 7: need: special resource: must be a name of 1 to 44 characters of A-Z, 0-9, @, #, $, . and -|
N,DAILY,2024-03-01T22:00,10,TAPE,E,K,,,|;line 7: need: mode: must be S or X|
N,DAILY,2024-03-01T22:00,10,TAPE,S,Y,,,|;line 7: need: keep: must be K or F|
X,TAPE,Y,0,,,,,,|;line 7: special resource: quantity: must be a whole number from 1 to 999999, without leading zeros, or empty|
X,TAPE,Y,1000000,,,,,,|;line 7: special resource: quantity: must be a whole number from 1 to 999999, without leading zeros, or empty|
X,TAPE,Y,05,,,,,,|;line 7: special resource: quantity: must be a whole number from 1 to 999999, without leading zeros, or empty|
X,TAPE,Y,5,5,,,,,|;line 7: special resource: field 5: must be empty|
N,DAILY,2024-03-01T22:00,10,TAPE,S,K,0,,|;line 7: need: amount: must be a whole number from 1 to 999999, without leading zeros, or empty|
N,DAILY,2024-03-01T22:00,10,TAPE,S,K,1000000,,|;line 7: need: amount: must be a whole number from 1 to 999999, without leading zeros, or empty|
N,DAILY,2024-03-01T22:00,10,TAPE,S,K,05,,|;line 7: need: amount: must be a whole number from 1 to 999999, without leading zeros, or empty|
N,DAILY,2024-03-01T22:00,10,TAPE,X,K,1,,|;line 7: need: amount: must be empty, since the need is exclusive|
N,DAILY,2024-03-01T22:00,10,TAPE,S,K,5,5,|;line 7: need: field 9: must be empty|
";

// The plan, with a special resource and a need of it.
const NEEDY: &str = "W,CPU1,A,,,,,,,
I,CPU1,2024-03-01T22:00,2024-03-02T06:00,2,0,0,,,
O,DAILY,2024-03-01T22:00,5,2024-03-02T05:00,,,,,
P,DAILY,2024-03-01T22:00,10,CPU1,30,0,0,,
P,DAILY,2024-03-01T22:00,20,CPU1,60,0,0,,
D,DAILY,2024-03-01T22:00,10,DAILY,2024-03-01T22:00,20,,,
X,TAPE,Y,,,,,,,
N,DAILY,2024-03-01T22:00,20,TAPE,S,K,,,
";

// Records that say what was said before, in these lines, and one of an occurrence that no record defines.
const KEYS: &str =
    "X,TAPE,N,,,,,,,|;line 9: special resource TAPE: given before, in line 7: each is given once|
I,CPU1,2024-03-01T22:00,2024-03-01T23:00,1,0,0,,,|;line 9: open interval of CPU1 from 2024-03-01T22:00: given before, in line 2: each is given once|line 9: open interval: overlaps that of line 2: intervals of a workstation may only touch|
O,DAILY,2024-03-01T22:00,1,2024-03-02T05:00,,,,,|;line 9: occurrence DAILY/2024-03-01T22:00: given before, in line 3: each is given once|
P,DAILY,2024-03-01T22:00,10,CPU1,30,0,0,,|;line 9: operation DAILY/2024-03-01T22:00/010: given before, in line 4: each is given once|
D,DAILY,2024-03-01T22:00,10,DAILY,2024-03-01T22:00,20,,,|;line 9: dependency of DAILY/2024-03-01T22:00/020 on DAILY/2024-03-01T22:00/010: given before, in line 6: each is given once|
N,DAILY,2024-03-01T22:00,20,TAPE,X,F,,,|;line 9: need of TAPE by DAILY/2024-03-01T22:00/020: given before, in line 8: each is given once|
P,WEEKLY,2024-03-01T22:00,1,CPU1,30,0,0,,|;line 9: occurrence WEEKLY/2024-03-01T22:00: no record defines it|
W,CPU1,C,,,,,,,|;line 9: workstation CPU1: given before, in line 1: each is given once|
";

// The plan, with a special resource of which there are five, and a need of one of it.
const STOCKED: &str = "W,CPU1,A,,,,,,,
I,CPU1,2024-03-01T22:00,2024-03-02T06:00,2,0,0,,,
O,DAILY,2024-03-01T22:00,5,2024-03-02T05:00,,,,,
P,DAILY,2024-03-01T22:00,10,CPU1,30,0,0,,
P,DAILY,2024-03-01T22:00,20,CPU1,60,0,0,,
D,DAILY,2024-03-01T22:00,10,DAILY,2024-03-01T22:00,20,,,
X,TAPE,Y,5,,,,,,
N,DAILY,2024-03-01T22:00,20,TAPE,S,K,,,
";

// Needs of as much as there is and of more, and of what no record defines.
const AMOUNTS: &str = "N,DAILY,2024-03-01T22:00,10,TAPE,S,K,5,,|;
N,DAILY,2024-03-01T22:00,10,TAPE,X,K,,,|;
N,DAILY,2024-03-01T22:00,10,TAPE,S,K,6,,|;line 9: need: amount: more than there is of the resource, by line 7|
N,DAILY,2024-03-01T22:00,10,TAPE,S,F,999999,,|;line 9: need: amount: more than there is of the resource, by line 7|
N,DAILY,2024-03-01T22:00,10,DISK,S,K,6,,|;line 9: special resource DISK: no record defines it|
N,DAILY,2024-03-01T22:00,10,DISK,S,K,999999,,|X,DISK,Y,,,,,,,|;
N,DAILY,2024-03-01T22:00,10,DISK,S,K,6,,||X,DISK,Y,5,,,,,,|;line 9: need: amount: more than there is of the resource, by line 11|
X,TAPE,Y,6,,,,,,|;line 9: special resource TAPE: given before, in line 7: each is given once|
";

// An occurrence of one operation, which needs a special resource and follows an operation of another occurrence: four lines.
const BILLING: &str = "O,BILLING,2024-03-01T22:00,5,2024-03-02T03:00,,,,,
P,BILLING,2024-03-01T22:00,10,CPU1,30,0,0,,
N,BILLING,2024-03-01T22:00,10,CUSTFILE,S,F,,,
D,PAYROLL,2024-03-01T22:00,40,BILLING,2024-03-01T22:00,10,,,
";

// What follows the occurrence, and what is told.
const AFTER_BILLING: &str = ";
W,CPU1,A,,,,,,,|;line 5: an addition brings no workstation, open interval or special resource: its records are O, P, D and N|
I,CPU1,2024-03-01T22:00,2024-03-02T06:00,2,3,0,,,|;line 5: an addition brings no workstation, open interval or special resource: its records are O, P, D and N|
X,CUSTFILE,Y,,,,,,,|;line 5: an addition brings no workstation, open interval or special resource: its records are O, P, D and N|
O,PAYROLL,2024-03-01T22:00,5,2024-03-02T05:00,,,,,|P,PAYROLL,2024-03-01T22:00,30,CPU1,20,0,0,,|;line 4: operation PAYROLL/2024-03-01T22:00/040: no record defines it|line 5: occurrence: another is in line 1: an addition is of one|
O,BILLING,2024-03-01T22:00,5,2024-03-02T03:00,,,,,|;line 5: occurrence BILLING/2024-03-01T22:00: given before, in line 1: each is given once|line 5: occurrence: another is in line 1: an addition is of one|
P,PAYROLL,2024-03-01T22:00,30,CPU1,20,0,0,,|;line 5: occurrence PAYROLL/2024-03-01T22:00: no record defines it|
P,BILLING,2024-03-01T22:00,10,SETP,60,0,0,,|;line 5: operation BILLING/2024-03-01T22:00/010: given before, in line 2: each is given once|
P,BILLING,2024-03-01T22:00,20,CPU1,6000,0,0,,|;line 5: operation: duration: must be a whole number from 1 to 5999, without leading zeros|
R,BILLING,,,,,,,,|;line 5: unknown kind: the first field is W, I, X, O, P, D or N|
||P,BILLING|;line 7: 2 fields: a record has 10|
N,PAYROLL,2024-03-01T22:00,40,CUSTFILE,X,K,,,|;line 5: operation PAYROLL/2024-03-01T22:00/040: no record defines it|
D,PAYROLL,2024-03-01T22:00,30,PAYROLL,2024-03-01T22:00,40,,,|;line 5: dependency: one of its operations must be of an occurrence that is added|
D,BILLING,2024-03-01T22:00,10,BILLING,2024-03-01T22:00,20,,,|;line 5: operation BILLING/2024-03-01T22:00/020: no record defines it|
D,BILLING,2024-03-01T22:00,10,PAYROLL,2024-03-01T22:00,40,,,|;
N,BILLING,2024-03-01T22:00,10,TAPE,S,F,999999,,|;
N,BILLING,2024-03-01T22:00,10,TAPE,S,F,1000000,,|;line 5: need: amount: must be a whole number from 1 to 999999, without leading zeros, or empty|
N,BILLING,2024-03-01T22:00,10,TAPE,X,F,1,,|;line 5: need: amount: must be empty, since the need is exclusive|
";

// Whole texts of additions, and what is told.
const WHOLE_ADDITIONS: &str =
    "\u{feff}O,WEEKLY,2024-03-01T22:00,5,2024-03-02T03:00,,,,,\r|P,\"WEEKLY\",2024-03-01T22:00,10,CPU9,30,0,0,,\r|;
;line 1: occurrence: the addition has none: it must have one|
O,BILLING,2024-03-01T22:00,5,2024-03-02T03:00,,,,,|;line 1: occurrence: it has no operation: it must have at least one|
P,BILLING,2024-03-01T22:00,10,CPU1,30,0,0,,|;line 1: occurrence BILLING/2024-03-01T22:00: no record defines it|line 1: occurrence: the addition has none: it must have one|
";

// What follows the occurrence in an extension, and what is told.
const AFTER_BILLING_IN_AN_EXTENSION: &str = ";
W,CPU1,A,,,,,,,|;line 5: an extension brings no workstation, open interval or special resource: its records are O, P, D and N|
O,WEEKLY,2024-03-01T22:00,5,2024-03-02T05:00,,,,,|P,WEEKLY,2024-03-01T22:00,30,CPU1,20,0,0,,|D,BILLING,2024-03-01T22:00,10,WEEKLY,2024-03-01T22:00,30,,,|;
O,WEEKLY,2024-03-01T22:00,5,2024-03-02T05:00,,,,,|;line 5: occurrence: it has no operation: it must have at least one|
O,BILLING,2024-03-01T22:00,5,2024-03-02T03:00,,,,,|;line 5: occurrence BILLING/2024-03-01T22:00: given before, in line 1: each is given once|
O,WEEKLY,2024-03-01T22:00,5,2024-03-02T05:00,,,,,|P,WEEKLY,2024-03-01T22:00,30,CPU1,20,0,0,,|D,WEEKLY,2024-03-01T22:00,40,PAYROLL,2024-03-01T22:00,30,,,|;line 7: operation WEEKLY/2024-03-01T22:00/040: no record defines it|
D,PAYROLL,2024-03-01T22:00,30,PAYROLL,2024-03-01T22:00,40,,,|;line 5: dependency: one of its operations must be of an occurrence that is added|
";

// Whole texts of extensions, and what is told.
const WHOLE_EXTENSIONS: &str = ";
P,BILLING,2024-03-01T22:00,10,CPU1,30,0,0,,|;line 1: occurrence BILLING/2024-03-01T22:00: no record defines it|
N,BILLING,2024-03-01T22:00,10,CUSTFILE,S,F,,,|;line 1: operation BILLING/2024-03-01T22:00/010: no record defines it|
D,PAYROLL,2024-03-01T22:00,30,PAYROLL,2024-03-01T22:00,40,,,|;line 1: dependency: one of its operations must be of an occurrence that is added|
";

/// What is wrong with the text of a plan, an addition or an extension is told by its words: of each field of each kind, each
/// kind of key, and the rest.
pub fn words_of_texts(alloc: Global) -> Result<(), &'static str> {
    let addition = Some(AddedText::Addition);
    let extension = Some(AddedText::Extension);
    each(alloc, None, PLAN, AFTER)?;
    each(alloc, None, "", WHOLE)?;
    each(alloc, None, PLAN, FIELDS)?;
    each(alloc, None, NEEDY, KEYS)?;
    each(alloc, None, STOCKED, AMOUNTS)?;
    each(alloc, addition, BILLING, AFTER_BILLING)?;
    each(alloc, addition, "", WHOLE_ADDITIONS)?;
    each(alloc, extension, BILLING, AFTER_BILLING_IN_AN_EXTENSION)?;
    each(alloc, extension, "", WHOLE_EXTENSIONS)
}

const WORKSTATIONS: &str = "line 1: workstation: the plan has 7: it may have at most 99";

const RESOURCES: &str = "line 1: special resource: the plan has 7: it may have at most 999";

const OCCURRENCES: &str = "line 1: occurrence: the plan has 7: it may have at most 5000";

const OPERATIONS: &str = "line 1: operation: the plan has 7: it may have at most 20000";

const DEPENDENCIES: &str = "line 1: dependency: the plan has 7: it may have at most 100000";

// Whether these words are told of seven of a group, where there is no record.
fn is_seven(alloc: Global, told: &TextFaults, group: Group, words: &str) -> bool {
    let fault = RecordFault {
        place: 0,
        fault: Fault::TooMany(group, 7),
    };
    is(&fault_text(alloc, &fault, told).ok(), words)
}

// Whether each group that is the whole plan's is told by its words.
fn are_seven(alloc: Global, told: &TextFaults) -> Result<(), &'static str> {
    all_so(&[
        (
            is_seven(alloc, told, Group::Workstations, WORKSTATIONS),
            WORKSTATIONS,
        ),
        (
            is_seven(alloc, told, Group::Resources, RESOURCES),
            RESOURCES,
        ),
        (
            is_seven(alloc, told, Group::Occurrences, OCCURRENCES),
            OCCURRENCES,
        ),
        (
            is_seven(alloc, told, Group::Operations, OPERATIONS),
            OPERATIONS,
        ),
        (
            is_seven(alloc, told, Group::Dependencies, DEPENDENCIES),
            DEPENDENCIES,
        ),
    ])
}

/// That there are more than may be is told of each group that is the whole plan's.
pub fn words_of_groups(alloc: Global) -> Result<(), &'static str> {
    match faults_of_text(alloc, b"") {
        Ok(told) => are_seven(alloc, &told),
        Err(_) => Err("memory"),
    }
}
