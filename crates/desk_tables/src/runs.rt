// Requests one after another.
ghost use Rattle.std.specs.Prelude.{◌≡◌, false, map, IfOk, IfErr, IsTrue, ⊤};
ghost use Rattle.std.specs.List.{list_any};
ghost use Rattle.sqlite.specs.Held.{state};
ghost use Rattle.sqlite.specs.State.{HasCleanDisk, Survives};
ghost use Rattle.plan_basics.specs.declared.Refusal.{Refusal};
ghost use Rattle.plan_records.specs.Answer.{answer_of};
ghost use Rattle.plan_records.specs.Schedules.{IsDeskState};
ghost use Rattle.desk_tables.specs.Desk.{state_of, usability, IsClean, HasTables, HoldsState};
ghost use Rattle.desk_tables.specs.Runs.{AreAnswered, AcceptedAreAnswered, StartsAreProvidedIn, TablesFollow};
ghost use Rattle.desk_tables.specs.Shut.{may_have_shut, IsOpenAfterAll};

use super::desk::Desk;
use plan_basics::Refusal;
use plan_records::{Reply, Request};
use sqlite::Alter;

/// Makes these requests at the desk, one after the other. The error is always `Memory`: the list of replies found no
/// memory, and nothing changed.
///
/// Whatever the requests: their replies and the plan are those of the definitions, and the receipts stay (`answers`); the
/// accepted requests alone would have been answered the same and led to the same plan (`alone`); the tables hold the rows
/// of that plan and of the receipts and no others (`tables`); a refused request leaves them as they were (`refused`); no
/// operation became started unless its predecessors were satisfied, its workstation was open, and servers, fixed and
/// special resources sufficed then (`starts`).
///
/// Of the tables this holds where the disk returns what was written, and the store was open. Where no reply is `Memory` or
/// `Store`, it is open afterwards (`is_open`); where one is, it has to be, and a fault alone shuts it (`survives`).
pub fn run_all<S: Alter + Drop>(
    desk: &mut Desk<S>,
    requests: &[Request],
) -> Result<Vec<Reply>, Refusal>
    ensures answers { IfOk result (λ replies. AreAnswered (state_of desk.old) (usability desk.old.is_usable) requests.now (map answer_of replies.items) (state_of desk.new) (usability desk.new.is_usable)) }
    ensures alone { IfOk result (λ replies. AcceptedAreAnswered (state_of desk.old) requests.now (map answer_of replies.items) (state_of desk.new)) }
    ensures tables { HasCleanDisk (state S.Store desk.new.conn) → IsTrue (state S.Store desk.old.conn).is_open → IfOk result (λ replies. IsOpenAfterAll (map answer_of replies.items) (state S.Store desk.new.conn)) → HasTables (state S.Store desk.old.conn) → HoldsState (state_of desk.new) (state S.Store desk.new.conn).committed }
    ensures refused { IfOk result (λ replies. HasCleanDisk (state S.Store desk.new.conn) → IsTrue (state S.Store desk.old.conn).is_open → IsOpenAfterAll (map answer_of replies.items) (state S.Store desk.new.conn) → HasTables (state S.Store desk.old.conn)
        → TablesFollow (state_of desk.old) (usability desk.old.is_usable) requests.now (map answer_of replies.items) (state S.Store desk.old.conn).committed (state_of desk.new) (usability desk.new.is_usable) (state S.Store desk.new.conn).committed) }
    ensures starts { IfOk result (λ replies. StartsAreProvidedIn (state_of desk.old) (usability desk.old.is_usable) requests.now (map answer_of replies.items) (state_of desk.new) (usability desk.new.is_usable)) }
    ensures sound { IsDeskState (state_of desk.new) }
    ensures clean { IsClean (state S.Store desk.new.conn) → IsClean (state S.Store desk.old.conn) }
    ensures is_open { IfOk result (λ replies. HasCleanDisk (state S.Store desk.new.conn) → IsTrue (state S.Store desk.old.conn).is_open → list_any may_have_shut (map answer_of replies.items) ≡ false → IsTrue (state S.Store desk.new.conn).is_open) }
    ensures survives { Survives (state S.Store desk.old.conn) (state S.Store desk.new.conn) (λ _. ⊤) }
    ensures memory { IfErr result (λ r. (r ≡ Refusal.Memory) × (desk.new ≡ desk.old)) }
{
    let mut replies = Vec::with_capacity(desk.alloc(), requests.len())?;
    for request in requests {
        let reply = desk.call(request);
        replies.push(reply).unwrap();
    }
    Ok(replies)
}
