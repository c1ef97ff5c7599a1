// What is told of a fault: the line where its record begins, what is wrong, and what it may be.
ghost use Rattle.std.specs.Prelude.{◌≡◌, ◌++◌, ℕ, List, codes, decimal, IfOk};
ghost use Rattle.std.specs.String.{string_bytes};
ghost use Rattle.text_faults.specs.TextFaults.{line_at};

use super::faults::TextFaults;
use plan_basics::{AppId, OpKey, ResName, WsName};
use plan_drafts::RowKey;
use record_faults::{Circle, Fault, Form, Group, Kind, RecordFault, Shape, most};
use std::alloc::{AllocError, Global};

// The names of the fields after each kind's letter, but for those behind, which are empty.
const WORKSTATION: [&str; 2] = ["name", "attribute"];

const INTERVAL: [&str; 6] = ["workstation", "first minute", "end", "servers", "R1", "R2"];

const RESOURCE: [&str; 3] = ["name", "available", "quantity"];

const OCCURRENCE: [&str; 4] = ["application", "input arrival", "priority", "deadline"];

const OPERATION: [&str; 9] = [
    "application",
    "input arrival",
    "number",
    "workstation",
    "duration",
    "R1",
    "R2",
    "not-before",
    "deadline",
];

const DEPENDENCY: [&str; 6] = [
    "predecessor's application",
    "predecessor's input arrival",
    "predecessor's number",
    "successor's application",
    "successor's input arrival",
    "successor's number",
];

const NEED: [&str; 7] = [
    "application",
    "input arrival",
    "number",
    "special resource",
    "mode",
    "keep",
    "amount",
];

// The names of the fields after a kind's letter that have one.
fn field_names(kind: Kind) -> &'static [&'static str] {
    match kind {
        Kind::Workstation => &WORKSTATION,
        Kind::Interval => &INTERVAL,
        Kind::Resource => &RESOURCE,
        Kind::Occurrence => &OCCURRENCE,
        Kind::Operation => &OPERATION,
        Kind::Dependency => &DEPENDENCY,
        Kind::Need => &NEED,
    }
}

// The name of a field by its index among those after the letter: its number in the record where it has none.
fn field_name(alloc: Global, kind: Kind, place: usize) -> Result<String, AllocError> {
    match field_names(kind).get(place) {
        Some(name) => String::from_str(alloc, name),
        None => {
            let number = place.saturating_add(2);
            format!(in alloc; "field {number}")
        }
    }
}

// What a kind is called.
fn kind_name(kind: Kind) -> &'static str {
    match kind {
        Kind::Workstation => "workstation",
        Kind::Interval => "open interval",
        Kind::Resource => "special resource",
        Kind::Occurrence => "occurrence",
        Kind::Operation => "operation",
        Kind::Dependency => "dependency",
        Kind::Need => "need",
    }
}

// What a field of a form may be.
fn may_be(alloc: Global, form: Form) -> Result<String, AllocError> {
    match form {
        Form::WorkstationName => format!(in alloc; "a name of {}", WsName::FORM),
        Form::ApplicationName => format!(in alloc; "a name of {}", AppId::FORM),
        Form::ResourceName => format!(in alloc; "a name of {}", ResName::FORM),
        Form::Attribute => format!(in alloc; "A, S, C or N"),
        Form::OneOf(first, second) => format!(in alloc;
            "{} or {}",
            char::from(first),
            char::from(second)
        ),
        Form::Number(least, most) => format!(in alloc;
            "a whole number from {least} to {most}, without leading zeros"
        ),
        Form::NumberOrEmpty(least, most) => format!(in alloc;
            "a whole number from {least} to {most}, without leading zeros, or empty"
        ),
        Form::Moment => format!(in alloc; "a moment YYYY-MM-DDTHH:MM"),
        Form::MomentOrEmpty => format!(in alloc; "a moment YYYY-MM-DDTHH:MM, or empty"),
        Form::Empty => format!(in alloc; "empty"),
    }
}

// What a key is that of.
fn key_text(alloc: Global, key: &RowKey) -> Result<String, AllocError> {
    match *key {
        RowKey::Meta => format!(in alloc; "plan"),
        RowKey::Workstation(name) => format!(in alloc; "workstation {name}"),
        RowKey::Interval(name, from) => format!(in alloc; "open interval of {name} from {from}"),
        RowKey::Resource(name) => format!(in alloc; "special resource {name}"),
        RowKey::Occurrence(key) => format!(in alloc; "occurrence {key}"),
        RowKey::Operation(key) => format!(in alloc; "operation {key}"),
        RowKey::Dependency(before, after) => format!(in alloc; "dependency of {after} on {before}"),
        RowKey::Need(key, name) => format!(in alloc; "need of {name} by {key}"),
        RowKey::Quantity(name) => format!(in alloc; "quantity of {name}"),
        RowKey::Amount(key, name) => format!(in alloc; "amount of {name} for {key}"),
    }
}

// What is wrong with a record by itself.
fn shape_text(alloc: Global, shape: Shape) -> Result<String, AllocError> {
    match shape {
        Shape::Length(count) => format!(in alloc; "{count} fields: a record has 10"),
        Shape::UnknownKind => format!(in alloc;
            "unknown kind: the first field is W, I, X, O, P, D or N"
        ),
        Shape::Field { kind, place, form } => {
            let name = field_name(alloc, kind, place)?;
            let form = may_be(alloc, form)?;
            format!(in alloc; "{}: {name}: must be {form}", kind_name(kind))
        }
        Shape::EndsEarly => format!(in alloc; "open interval: end: must be after the first minute"),
        Shape::ExclusiveAmount => format!(in alloc;
            "need: amount: must be empty, since the need is exclusive"
        ),
    }
}

// What the records of a group are called, and of what there may be so many of them.
fn group_text(alloc: Global, group: &Group) -> Result<String, AllocError> {
    match *group {
        Group::Workstations => format!(in alloc; "workstation: the plan"),
        Group::IntervalsOf(name) => format!(in alloc; "open interval: workstation {name}"),
        Group::Resources => format!(in alloc; "special resource: the plan"),
        Group::Occurrences => format!(in alloc; "occurrence: the plan"),
        Group::Operations => format!(in alloc; "operation: the plan"),
        Group::Dependencies => format!(in alloc; "dependency: the plan"),
        Group::NeedsOf(key) => format!(in alloc; "need: operation {key}"),
    }
}

/// The line of a record; of the last one, where there is no record at the place, and 1 where there is none at all.
pub fn line_of(lines: &[u64], place: usize) -> u64
    ensures { result ≡ line_at lines.now place }
{
    match lines.get(place) {
        Some(line) => *line,
        None => lines.last().copied().unwrap_or(1),
    }
}

// Operations in the order in which one comes after another.
fn path_text(alloc: Global, circle: &Circle) -> Result<String, AllocError> {
    let mut text = format!(in alloc; "{}", circle.first)?;
    for place in 0..circle.way.len() {
        let key: OpKey = circle.way[circle.way.len() - 1 - place];
        let more = format!(in alloc; ", {key}")?;
        text.push_str(&more)?;
    }
    Ok(text)
}

// What is wrong, and what it may be.
fn wrong_text(alloc: Global, fault: &Fault, told: &TextFaults) -> Result<String, AllocError> {
    match *fault {
        Fault::Shape(shape) => shape_text(alloc, shape),
        Fault::Repeated(key, first) => {
            let key = key_text(alloc, &key)?;
            let first = line_of(&told.lines, first);
            format!(in alloc; "{key}: given before, in line {first}: each is given once")
        }
        Fault::Undefined(key) => {
            let key = key_text(alloc, &key)?;
            format!(in alloc; "{key}: no record defines it")
        }
        Fault::NoOperation => format!(in alloc;
            "occurrence: it has no operation: it must have at least one"
        ),
        Fault::Overlaps(other) => {
            let other = line_of(&told.lines, other);
            format!(in alloc;
                "open interval: overlaps that of line {other}: intervals of a workstation may only touch"
            )
        }
        Fault::BeyondStock(other) => {
            let other = line_of(&told.lines, other);
            format!(in alloc; "need: amount: more than there is of the resource, by line {other}")
        }
        Fault::TooMany(group, count) => {
            let text = group_text(alloc, &group)?;
            let most = most(&group);
            format!(in alloc; "{text} has {count}: it may have at most {most}")
        }
        Fault::Missing(group) => {
            let text = group_text(alloc, &group)?;
            format!(in alloc; "{text} has none: it must have at least one")
        }
        Fault::Returns => returns_text(alloc, &told.circle),
    }
}

// That a dependency closes a path.
fn returns_text(alloc: Global, circle: &Option<Circle>) -> Result<String, AllocError> {
    let Some(circle) = circle else {
        return format!(in alloc; "dependency: closes a path that returns: no path may");
    };
    let path = path_text(alloc, circle)?;
    format!(in alloc; "dependency: closes a path that returns: no path may: {path}")
}

// A line's number, and what is told of it.
fn numbered(alloc: Global, line: u64, wrong: &str) -> Result<String, AllocError>
    ensures { IfOk result (λ text. string_bytes text ≡ codes "line " ++ decimal line ++ codes ": " ++ wrong.now) }
{
    let text = format!(in alloc; "line {line}: {wrong}")?;
    Ok(text)
}

/// What is told of a fault of a text: `line N: `, the line in which its record begins, what is wrong, and what it may be.
/// A fault of no record is told with the line of the last record, or line 1 where there is none. It fails for want of
/// memory only.
pub fn fault_text(
    alloc: Global,
    fault: &RecordFault,
    told: &TextFaults,
) -> Result<String, AllocError>
    ensures { IfOk result (λ text. (wrong : List ℕ) × (string_bytes text ≡ codes "line " ++ decimal (line_at told.now.lines.items fault.now.place) ++ codes ": " ++ wrong)) }
{
    let line = line_of(&told.lines, fault.place);
    let wrong = wrong_text(alloc, &fault.fault, told)?;
    numbered(alloc, line, &wrong)
}
