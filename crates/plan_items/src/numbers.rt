// Whole numbers in a field.
ghost use Rattle.std.specs.Prelude.{◌≡◌, ◌↔◌, ℕ, ◌^◌, ◌≤◌, IsTrue, All, IsSome, IfSome, MatchOption, decimal};
ghost use Rattle.std.specs.Str.Parse.{digits_value};
ghost use Rattle.plan_items.specs.Numerals.{IsDigit, IsPlainNumeral};
ghost use Rattle.plan_items.specs.Parts.{IsReading, IsNumberText};

// Whether a text has no byte but decimal digits.
fn are_digits(text: &[u8]) -> bool
    ensures { IsTrue result ↔ All IsDigit text.now }
{
    text.iter().all(|digit| *digit >= b'0' && *digit <= b'9')
}

// Whether a text is decimal digits without sign and without leading zeros.
fn is_numeral(text: &[u8]) -> bool
    ensures { IsTrue result ↔ IsPlainNumeral text.now }
{
    match text {
        [] => false,
        [b'0', _, ..] => false,
        _ => are_digits(text),
    }
}

// The number that decimal digits write, if it is of four bytes.
fn value_of_digits(digits: &[u8]) -> Option<u32>
    requires { IsPlainNumeral digits.now }
    ensures { MatchOption result (2 ^ 32 ≤ digits_value 10 digits.now) (λ n. n ≡ digits_value 10 digits.now) }
{
    let mut value: u64 = 0;
    for digit in digits {
        value = value * 10 + u64::from(*digit - b'0');
        if value > 4_294_967_295 {
            return None;
        }
    }
    Some(value as u32)
}

// A whole number of at most `most`: decimal digits without sign and without leading zeros.
pub fn number_of_text(text: &[u8], most: u32) -> Option<u32>
    ensures some { IsSome result ↔ ((n : ℕ) × (n ≤ most) × (text.now ≡ decimal n)) }
    ensures value { IfSome result (λ n. (n ≤ most) × (text.now ≡ decimal n)) }
{
    if !is_numeral(text) {
        return None;
    }
    match value_of_digits(text) {
        Some(number) if number <= most => Some(number),
        _ => None,
    }
}

// A whole number from `least` to `most`.
pub fn number_within(text: &[u8], least: u32, most: u32) -> Option<u32>
    ensures { IsReading (λ n. IsNumberText least most text.now n) result }
{
    match number_of_text(text, most) {
        Some(number) if number >= least => Some(number),
        _ => None,
    }
}

// A whole number from `least` to `most`, of two bytes.
pub fn short_number_within(text: &[u8], least: u16, most: u16) -> Option<u16>
    ensures { IsReading (λ n. IsNumberText least most text.now n) result }
{
    let number = number_within(text, u32::from(least), u32::from(most))?;
    Some(number as u16)
}

// A whole number from `least` to `most`, of one byte.
pub fn small_number_within(text: &[u8], least: u8, most: u8) -> Option<u8>
    ensures { IsReading (λ n. IsNumberText least most text.now n) result }
{
    let number = short_number_within(text, u16::from(least), u16::from(most))?;
    Some(number as u8)
}
