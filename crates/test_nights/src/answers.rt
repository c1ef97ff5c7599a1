// Answers, as nights tell them.
use super::names::operation;
use super::words::{cut, listed};
use plan_basics::OpKey;
use plan_records::Reply;

// Whether these are the keys of the operations of a list.
fn are_keys(keys: &[OpKey], names: &str) -> Option<bool> {
    let names = listed(names)?;
    for (key, name) in keys.iter().zip(names.split_whitespace()) {
        if *key != operation(name)? {
            return None;
        }
    }
    Some(names.split_whitespace().count() == keys.len())
}

/// Whether the answer is what a turn says behind its bar.
pub fn is_told(reply: &Reply, turn: &str) -> Option<bool> {
    let (_, told) = cut(turn, " | ")?;
    let (word, told) = cut(told, " ")?;
    match reply {
        Reply::Accepted { named } if word == "names" => are_keys(named, told),
        Reply::Refused(refusal) if word == "refused" => {
            let number: u8 = told.parse().ok()?;
            Some(refusal.number() == number)
        }
        _ => None,
    }
}
