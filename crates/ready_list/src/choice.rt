// What a gate names of a ready list.
ghost use Rattle.std.specs.Prelude.{◌≡◌, ◌⊎◌, ◌++◌, ◌∷◌, [], Bool, IsTrue, IfOk, IfErr, OnOk};
ghost use Rattle.plan_basics.specs.declared.Refusal.{Refusal};
ghost use Rattle.plan_basics.specs.declared.keys.OpKey.{OpKey};
ghost use Rattle.ready_list.specs.Entries.{is_automatic, on_automatic};
ghost use Rattle.ready_list.specs.Gates.{AnswersInTurn, RefusesInTurn};

use crate::entry::ReadyEntry;
use plan_basics::{Attr, OpKey, Refusal};
use std::alloc::{AllocError, Global};

/// Says which operations of a ready list are allowed to start, asked of one after the other.
pub trait Gate {
    ghost use Rattle.ready_list.specs.declared.entry.ReadyEntry.{ReadyEntry};

    /// What it goes by.
    type Source;

    /// What it goes by, which stays whatever it is asked.
    ghost source: { Self → Self.Source };

    /// In this state it answers so of the operation, and is in that state then.
    ghost answers: { Self → ReadyEntry → Bool → Self → Type 0 };

    /// In this state it may refuse so to answer of the operation.
    ghost refuses: { Self → ReadyEntry → Refusal → Type 0 };

    /// Whether the operation of an entry is allowed, with those counted as started of which it said so before. It is asked
    /// once of each. Where it can't answer, the refusal ends the choice.
    fn name(&mut self, entry: &ReadyEntry) -> Result<bool, Refusal>
        ensures answered { IfOk result (λ yes. answers self.old entry.now yes self.new) }
        ensures refused { IfErr result (refuses self.old entry.now) }
        ensures source { source self.new ≡ source self.old };
}

/// Whether the desk starts operations on a workstation of this attribute.
fn starts_operations(attribute: Attr) -> bool
    ensures { result ≡ is_automatic attribute }
{
    match attribute {
        Attr::Automatic => true,
        Attr::StartAndCompletion | Attr::CompletionOnly | Attr::Nonreporting => false,
    }
}

/// Adds an operation at the end.
fn add(named: &mut Vec<OpKey>, op: OpKey) -> Result<(), AllocError>
    ensures { OnOk result (named.new.items ≡ named.old.items ++ op ∷ []) }
{
    Ok(named.push(op)?)
}

/// The operations on automatic workstations to which the gate says yes, which is asked of each in order.
pub fn named_by<G: Gate>(
    alloc: Global,
    entries: &[ReadyEntry],
    gate: &mut G,
) -> Result<Vec<OpKey>, Refusal>
    ensures named { IfOk result (λ named. AnswersInTurn G.answers (on_automatic entries.now) gate.old named.items gate.new) }
    ensures refused { IfErr result (λ r. (r ≡ Refusal.Memory) ⊎ RefusesInTurn G.answers G.refuses (on_automatic entries.now) gate.old r) }
    ensures source { G.source gate.new ≡ G.source gate.old }
{
    let mut named = Vec::new(alloc);
    for entry in entries {
        if starts_operations(entry.attr) && gate.name(entry)? {
            add(&mut named, entry.key.op)?;
        }
    }
    Ok(named)
}
