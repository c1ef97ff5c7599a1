// The key of an operation as people type it: its number needs no zeros.
ghost use Rattle.std.specs.Prelude.{◌↔◌, ℕ, ◌<◌, List, IfSome, IsSome, IsTrue, MatchOption};
ghost use Rattle.plan_basics.specs.KeyTexts.{IsSplit};
ghost use Rattle.plan_basics.specs.declared.keys.OpKey.{OpKey as OpKeyValue};
ghost use Rattle.plan_shows.specs.Typed.{IsTypedBy, IsTypedNumber, IsTypedOperation, TellsNumber};

use plan_basics::limits::{GREATEST_NUMBER, LEAST_NUMBER};
use plan_basics::{OccKey, OpKey};

// Whether a text is one to three decimal digits.
fn is_number(text: &[u8]) -> bool
    ensures { IsTrue result ↔ IsTypedNumber text.now }
{
    !text.is_empty() && text.len() <= 3 && text.iter().all(|digit| *digit >= b'0' && *digit <= b'9')
}

// The number that one to three digits tell.
fn number_told(text: &[u8]) -> Option<u16>
    ensures { MatchOption result ((n : ℕ) → ¬ TellsNumber text.now n) (TellsNumber text.now) }
{
    if !is_number(text) {
        return None;
    }
    let Ok(digits) = std::str::from_utf8(text) else {
        return None;
    };
    digits.parse().ok()
}

// What comes before the slash that is followed by so many bytes, and these.
fn split_at_slash(text: &[u8], width: usize) -> Option<(&[u8], &[u8])>
    requires { width < 4 }
    ensures some { IsSome result ↔ ((front : List ℕ) × (back : List ℕ) × IsSplit width text.now front back) }
    ensures value { IfSome result (λ parts. IsSplit width text.now parts.0.now parts.1.now) }
{
    if text.len() <= width {
        return None;
    }
    let slash = text.len() - width - 1;
    if text[slash] != b'/' {
        return None;
    }
    Some((&text[..slash], &text[slash + 1..]))
}

// The key of the operation that is typed with a number of so many digits, if one is.
fn typed_by(text: &[u8], width: usize) -> Option<OpKey>
    requires { width < 4 }
    ensures { MatchOption result ((o : OpKeyValue) → ¬ IsTypedBy width text.now o) (IsTypedBy width text.now) }
{
    let (front, back) = split_at_slash(text, width)?;
    let occurrence = OccKey::from_text(front)?;
    let number = number_told(back)?;
    if number < LEAST_NUMBER as u16 || number > GREATEST_NUMBER as u16 {
        return None;
    }
    Some(OpKey {
        occurrence,
        number: number as u8,
    })
}

/// The key of the operation that is typed as `APP/MOMENT/N`, if one is: its number, 1 to 255, has one to three digits, with
/// zeros before it or not. No memory is taken.
pub fn operation_typed(text: &[u8]) -> Option<OpKey>
    ensures { MatchOption result ((o : OpKeyValue) → ¬ IsTypedOperation text.now o) (IsTypedOperation text.now) }
{
    if let Some(key) = typed_by(text, 3) {
        return Some(key);
    }
    if let Some(key) = typed_by(text, 2) {
        return Some(key);
    }
    typed_by(text, 1)
}
