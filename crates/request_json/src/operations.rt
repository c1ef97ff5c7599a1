// What is asked of one operation, by `do`.
ghost use Rattle.std.specs.Prelude.{◌≡◌, ◌↔◌, Some, MatchOption, IsTrue};
ghost use Rattle.plan_basics.specs.declared.keys.OpKey.{OpKey};
ghost use Rattle.plan_items.specs.Parts.{IsReading};
ghost use Rattle.plan_records.specs.declared.What.{What};
ghost use Rattle.request_json.specs.Counted.{AsksBy, IsReportVerb, on_operation, IsOnOperation};
ghost use Rattle.serde_json.specs.View.{view};

use super::members::operation_at;
use super::verbs::{
    COMPLETE, ENDED, ERROR, HOLD, INTERRUPTED, NOP, RELEASE, RERUN, STARTED, UNKNOWN, UNNOP,
};
use plan_basics::OpKey;
use plan_records::What;
use serde_json::Value;

/// Whether this `do` is a tracker's.
pub fn is_report(verb: &str) -> bool
    ensures { IsTrue result ↔ IsReportVerb verb.now }
{
    matches!(verb, STARTED | ENDED | ERROR | INTERRUPTED | UNKNOWN)
}

/// What is asked of an operation, where nothing but its key is to be told.
pub fn read_on_operation(verb: &str, value: &Value, count: usize) -> Option<What>
    ensures { IsReading (λ x. AsksBy (view value.now) verb.now count x × IsOnOperation x) result }
{
    if count != 3 {
        return None;
    }
    let key = operation_at(value, "op")?;
    on_operation(verb, key)
}

// The request of this `do` on an operation.
fn on_operation(verb: &str, key: OpKey) -> Option<What>
    ensures { MatchOption result ((x : What) → (k : OpKey) → ¬ (on_operation x ≡ Some (verb.now, k)))
        (λ x. on_operation x ≡ Some (verb.now, key)) }
{
    match verb {
        STARTED => Some(What::Started(key)),
        ENDED => Some(What::Ended(key)),
        INTERRUPTED => Some(What::Interrupted(key)),
        UNKNOWN => Some(What::Unknown(key)),
        HOLD => Some(What::Hold(key)),
        RELEASE => Some(What::Release(key)),
        NOP => Some(What::Nop(key)),
        UNNOP => Some(What::Unnop(key)),
        RERUN => Some(What::Rerun(key)),
        COMPLETE => Some(What::Complete(key)),
        _ => None,
    }
}
