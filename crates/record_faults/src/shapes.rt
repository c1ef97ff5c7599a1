// What is wrong with a record by itself.
ghost use Rattle.std.specs.Prelude.{◌≡◌, ◌↔◌, ◌<◌, ◌≤◌, IsTrue, List, length, slice_index_or, Some, slice_get, [], MatchOption};
ghost use Rattle.plan_items.specs.declared.Item.{Item};
ghost use Rattle.plan_items.specs.Items.{fields_of, Says};
ghost use Rattle.record_faults.specs.declared.kinds.Form.{Form};
ghost use Rattle.record_faults.specs.Shapes.{text_at, AreRead, IsFirstUnread, EndsEarly, IsOfKind, IsShapeFault};

use super::fields::reads;
use super::kinds::{Form, Kind, Shape, forms, kind_of};
use plan_basics::Moment;
use plan_items::{Item, read_item};

// What a record says.
pub fn item_of(fields: &[Vec<u8>]) -> Option<Item>
    ensures { MatchOption result ((item : Item) → ¬ Says (fields_of fields.now) item) (λ item. Says (fields_of fields.now) item) }
{
    match fields.as_array::<10>() {
        Some(fields) => read_item(fields),
        None => None,
    }
}

// The first field that isn't of its form, of those after the letter.
fn first_unread(fields: &[Vec<u8>], forms: &[Form; 9]) -> Option<usize>
    requires { length fields.now ≡ 10 }
    ensures { MatchOption result (AreRead forms.now 9 (fields_of fields.now)) (λ place. (place < 9) × ((f : Form) → slice_get forms.now place ≡ Some f → IsFirstUnread forms.now (fields_of fields.now) place f)) }
{
    for place in 0..9 {
        if !reads(forms[place], &fields[place + 1]) {
            return Some(place);
        }
    }
    None
}

// What is wrong with a record of a kind that says nothing.
fn shape_of_kind(kind: Kind, fields: &[Vec<u8>]) -> Shape
    requires kind { IsOfKind kind (fields_of fields.now) }
    requires silent { (item : Item) → ¬ Says (fields_of fields.now) item }
    ensures { IsShapeFault (fields_of fields.now) result }
{
    let forms = forms(kind);
    match first_unread(fields, &forms) {
        Some(place) => Shape::Field {
            kind,
            place,
            form: forms[place],
        },
        None => match kind {
            Kind::Need => Shape::ExclusiveAmount,
            _ => Shape::EndsEarly,
        },
    }
}

// What is wrong with a record that says nothing.
pub fn shape_of(fields: &[Vec<u8>]) -> Shape
    requires { (item : Item) → ¬ Says (fields_of fields.now) item }
    ensures { IsShapeFault (fields_of fields.now) result }
{
    if fields.len() != 10 {
        return Shape::Length(fields.len());
    }
    match kind_of(&fields[0]) {
        Some(kind) => shape_of_kind(kind, fields),
        None => Shape::UnknownKind,
    }
}
