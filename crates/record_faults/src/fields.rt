// Whether a field is of a form.
ghost use Rattle.std.specs.Prelude.{◌≡◌, ◌↔◌, ◌⊎◌, ℕ, ◌^◌, ◌≤◌, [], ◌∷◌, IsTrue, All, MatchOption};
ghost use Rattle.std.specs.Str.Parse.{digits_value};
ghost use Rattle.plan_basics.specs.declared.Attr.{Attr};
ghost use Rattle.plan_basics.specs.Attributes.{attribute_letter};
ghost use Rattle.plan_items.specs.Numerals.{IsDigit, IsPlainNumeral};
ghost use Rattle.plan_items.specs.Parts.{IsNumberText};
ghost use Rattle.record_faults.specs.Shapes.{Reads};

use super::kinds::Form;
use plan_basics::{AppId, Attr, Moment, ResName, WsName};

// Whether a text is a number as records write one.
fn is_plain(text: &[u8]) -> bool
    ensures { IsTrue result ↔ IsPlainNumeral text.now }
{
    let digits = text.iter().all(|byte| *byte >= b'0' && *byte <= b'9');
    match text {
        [] => false,
        [b'0', _, ..] => false,
        _ => digits,
    }
}

// The value of such a text, if it is below 4,294,967,296.
fn plain_value(text: &[u8]) -> Option<u32>
    requires { IsPlainNumeral text.now }
    ensures { MatchOption result (2 ^ 32 ≤ digits_value 10 text.now) (λ n. n ≡ digits_value 10 text.now) }
{
    match str::from_utf8(text) {
        Ok(digits) => digits.parse().ok(),
        Err(_) => None,
    }
}

// Whether a text is that of a whole number from the least to the most.
fn is_number_within(text: &[u8], least: u32, most: u32) -> bool
    ensures { IsTrue result ↔ ((n : ℕ) × IsNumberText least most text.now n) }
{
    if !is_plain(text) {
        return false;
    }
    match plain_value(text) {
        Some(value) if value >= least && value <= most => true,
        _ => false,
    }
}

// Whether a text is one of two letters.
fn is_one_of(text: &[u8], first: u8, second: u8) -> bool
    ensures { IsTrue result ↔ ((text.now ≡ first ∷ []) ⊎ (text.now ≡ second ∷ [])) }
{
    match text {
        [letter] => *letter == first || *letter == second,
        _ => false,
    }
}

// Whether a text is the letter of an attribute.
fn is_attribute(text: &[u8]) -> bool
    ensures { IsTrue result ↔ ((attribute : Attr) × (text.now ≡ attribute_letter attribute ∷ [])) }
{
    match text {
        [letter] => Attr::from_letter(*letter).is_some(),
        _ => false,
    }
}

// Whether a text is that of a moment.
fn is_moment(text: &[u8]) -> bool
    ensures { IsTrue result ↔ Reads Form.Moment text.now }
{
    Moment::from_text(text).is_some()
}

// Whether a text is of a form.
pub fn reads(form: Form, text: &[u8]) -> bool
    ensures { IsTrue result ↔ Reads form text.now }
{
    match form {
        Form::WorkstationName => WsName::from_text(text).is_some(),
        Form::ApplicationName => AppId::from_text(text).is_some(),
        Form::ResourceName => ResName::from_text(text).is_some(),
        Form::Attribute => is_attribute(text),
        Form::OneOf(first, second) => is_one_of(text, first, second),
        Form::Number(least, most) => is_number_within(text, least, most),
        Form::NumberOrEmpty(least, most) => {
            text.is_empty() || is_number_within(text, least, most)
        }
        Form::Moment => is_moment(text),
        Form::MomentOrEmpty => text.is_empty() || is_moment(text),
        Form::Empty => text.is_empty(),
    }
}
