// The fields of a record.
ghost use Rattle.std.specs.Prelude.{◌≡◌, ◌↔◌, ◌-◌, ◌<◌, ◌≤◌, [], ◌∷◌, IsTrue, All, slice_index_or, drop, replicate};
ghost use Rattle.plan_items.specs.Parts.{IsReading};
ghost use Rattle.plan_items.specs.Items.{fields_of};

// The field at an index.
pub fn field(fields: &[Vec<u8>; 10], place: usize) -> &[u8]
    requires { place < 10 }
    ensures { result.now ≡ slice_index_or (fields_of fields.now) place [] }
{
    fields[place].as_slice()
}

// Whether the fields are all empty.
fn are_empty(fields: &[Vec<u8>]) -> bool
    ensures { IsTrue result ↔ All (λ field. field.items ≡ []) fields.now }
{
    fields.iter().all(|field| field.is_empty())
}

// Whether the fields from an index on are empty.
pub fn are_empty_from(fields: &[Vec<u8>; 10], place: usize) -> bool
    requires { place ≤ 10 }
    ensures { IsTrue result ↔ (drop place (fields_of fields.now) ≡ replicate (10 - place) []) }
{
    let fields = fields.as_slice();
    are_empty(&fields[place..])
}

// The letter of a text that is one letter.
pub fn letter_of(text: &[u8]) -> Option<u8>
    ensures { IsReading (λ letter. text.now ≡ letter ∷ []) result }
{
    match text {
        [letter] => Some(*letter),
        _ => None,
    }
}
