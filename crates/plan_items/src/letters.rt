// Letters that stand for one of a few values.
ghost use Rattle.std.specs.Prelude.{◌≡◌, [], ◌∷◌};
ghost use Rattle.plan_basics.specs.Attributes.{attribute_letter};
ghost use Rattle.plan_items.specs.Parts.{IsReading, available_letter, mode_letter, keep_letter};

use super::fields::letter_of;
use plan_basics::Attr;
use special_resources::Mode;

// A workstation's attribute.
pub fn read_attribute(text: &[u8]) -> Option<Attr>
    ensures { IsReading (λ attribute. text.now ≡ attribute_letter attribute ∷ []) result }
{
    Attr::from_letter(letter_of(text)?)
}

// Whether a special resource is available.
pub fn read_available(text: &[u8]) -> Option<bool>
    ensures { IsReading (λ available. text.now ≡ available_letter available) result }
{
    match letter_of(text)? {
        b'Y' => Some(true),
        b'N' => Some(false),
        _ => None,
    }
}

// How a special resource is needed.
pub fn read_mode(text: &[u8]) -> Option<Mode>
    ensures { IsReading (λ mode. text.now ≡ mode_letter mode) result }
{
    match letter_of(text)? {
        b'S' => Some(Mode::Shared),
        b'X' => Some(Mode::Exclusive),
        _ => None,
    }
}

// Whether an error keeps a special resource.
pub fn read_keep(text: &[u8]) -> Option<bool>
    ensures { IsReading (λ keep. text.now ≡ keep_letter keep) result }
{
    match letter_of(text)? {
        b'K' => Some(true),
        b'F' => Some(false),
        _ => None,
    }
}
