// The kinds of records, and the forms of their fields.
ghost use Rattle.std.specs.Prelude.{◌≡◌, [], ◌∷◌, MatchOption};
ghost use Rattle.record_faults.specs.declared.kinds.Kind.{Kind};
ghost use Rattle.record_faults.specs.Shapes.{letter_of, forms_of};

use plan_basics::limits::{
    GREATEST_NUMBER, HIGHEST_PRIORITY, LEAST_NUMBER, LONGEST_DURATION, LOWEST_PRIORITY, MOST_FIXED,
    MOST_QUANTITY, MOST_SERVERS, SHORTEST_DURATION,
};

/// The kind of a record, which its first field tells by a letter.
#[derive(Clone, Copy, PartialEq, Eq)]
pub enum Kind {
    Workstation,
    Interval,
    Resource,
    Occurrence,
    Operation,
    Dependency,
    Need,
}

/// What a field of a record may be.
#[derive(Clone, Copy, PartialEq, Eq)]
pub enum Form {
    /// A workstation's name.
    WorkstationName,
    /// An application's name.
    ApplicationName,
    /// A special resource's name.
    ResourceName,
    /// The letter of a workstation's attribute.
    Attribute,
    /// One of two letters.
    OneOf(u8, u8),
    /// A whole number from the first to the second, in decimal digits without sign and without leading zeros.
    Number(u32, u32),
    /// Such a number, or nothing.
    NumberOrEmpty(u32, u32),
    /// A moment.
    Moment,
    /// A moment, or nothing.
    MomentOrEmpty,
    /// Nothing.
    Empty,
}

/// What is wrong with a record by itself.
#[derive(Clone, Copy, PartialEq, Eq)]
pub enum Shape {
    /// It hasn't ten fields, but so many.
    Length(usize),
    /// Its first field is no kind's letter.
    UnknownKind,
    /// A field isn't what it may be; those before it are. The place is its index among the nine fields after the letter.
    Field {
        kind: Kind,
        place: usize,
        form: Form,
    },
    /// The interval's end isn't after its first minute.
    EndsEarly,
    /// The need is exclusive, and has an amount.
    ExclusiveAmount,
}

// The kind that a letter stands for.
fn kind_of_letter(letter: u8) -> Option<Kind>
    ensures { MatchOption result ((kind : Kind) → letter_of kind ≡ letter → ⊥) (λ kind. letter_of kind ≡ letter) }
{
    match letter {
        b'W' => Some(Kind::Workstation),
        b'I' => Some(Kind::Interval),
        b'X' => Some(Kind::Resource),
        b'O' => Some(Kind::Occurrence),
        b'P' => Some(Kind::Operation),
        b'D' => Some(Kind::Dependency),
        b'N' => Some(Kind::Need),
        _ => None,
    }
}

// The kind that a first field tells.
pub fn kind_of(text: &[u8]) -> Option<Kind>
    ensures { MatchOption result ((kind : Kind) → text.now ≡ letter_of kind ∷ [] → ⊥) (λ kind. text.now ≡ letter_of kind ∷ []) }
{
    match text {
        [letter] => kind_of_letter(*letter),
        _ => None,
    }
}

const OPERATION_NUMBER: Form = Form::Number(LEAST_NUMBER as u32, GREATEST_NUMBER as u32);

const FIXED_AMOUNT: Form = Form::Number(0, MOST_FIXED as u32);

const SERVERS: Form = Form::Number(0, MOST_SERVERS as u32);

const PRIORITY: Form = Form::Number(LOWEST_PRIORITY as u32, HIGHEST_PRIORITY as u32);

const DURATION: Form = Form::Number(SHORTEST_DURATION as u32, LONGEST_DURATION as u32);

const QUANTITY: Form = Form::NumberOrEmpty(1, MOST_QUANTITY);

// The forms of the nine fields after each kind's letter.
const WORKSTATION: [Form; 9] = [
    Form::WorkstationName,
    Form::Attribute,
    Form::Empty,
    Form::Empty,
    Form::Empty,
    Form::Empty,
    Form::Empty,
    Form::Empty,
    Form::Empty,
];

const INTERVAL: [Form; 9] = [
    Form::WorkstationName,
    Form::Moment,
    Form::Moment,
    SERVERS,
    FIXED_AMOUNT,
    FIXED_AMOUNT,
    Form::Empty,
    Form::Empty,
    Form::Empty,
];

const RESOURCE: [Form; 9] = [
    Form::ResourceName,
    Form::OneOf(b'Y', b'N'),
    QUANTITY,
    Form::Empty,
    Form::Empty,
    Form::Empty,
    Form::Empty,
    Form::Empty,
    Form::Empty,
];

const OCCURRENCE: [Form; 9] = [
    Form::ApplicationName,
    Form::Moment,
    PRIORITY,
    Form::Moment,
    Form::Empty,
    Form::Empty,
    Form::Empty,
    Form::Empty,
    Form::Empty,
];

const OPERATION: [Form; 9] = [
    Form::ApplicationName,
    Form::Moment,
    OPERATION_NUMBER,
    Form::WorkstationName,
    DURATION,
    FIXED_AMOUNT,
    FIXED_AMOUNT,
    Form::MomentOrEmpty,
    Form::MomentOrEmpty,
];

const DEPENDENCY: [Form; 9] = [
    Form::ApplicationName,
    Form::Moment,
    OPERATION_NUMBER,
    Form::ApplicationName,
    Form::Moment,
    OPERATION_NUMBER,
    Form::Empty,
    Form::Empty,
    Form::Empty,
];

const NEED: [Form; 9] = [
    Form::ApplicationName,
    Form::Moment,
    OPERATION_NUMBER,
    Form::ResourceName,
    Form::OneOf(b'S', b'X'),
    Form::OneOf(b'K', b'F'),
    QUANTITY,
    Form::Empty,
    Form::Empty,
];

/// The forms of the nine fields after a kind's letter.
pub fn forms(kind: Kind) -> [Form; 9]
    ensures { result ≡ forms_of kind }
{
    match kind {
        Kind::Workstation => WORKSTATION,
        Kind::Interval => INTERVAL,
        Kind::Resource => RESOURCE,
        Kind::Occurrence => OCCURRENCE,
        Kind::Operation => OPERATION,
        Kind::Dependency => DEPENDENCY,
        Kind::Need => NEED,
    }
}
