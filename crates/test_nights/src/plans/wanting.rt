// A plan in want of memory, which knows turns alone. Each turn is asked while all memory is taken, and again each
// time that a block more is given back: until it is answered it is refused for want of memory. Then it is carried out while all
// is taken.
use crate::answers::is_told;
use crate::playing::Player;
use crate::requests::request;
use plan_basics::Refusal;
use plan_core::Plan;
use plan_records::{Reply, Request};
use std::alloc::Global;
use test_memory::{Held, MemoryOutcome, SPARES, swept};

/// A plan in want of memory.
#[derive(Drop)]
pub struct Wanting {
    alloc: Global,
    plan: Plan,
}

// What comes of a request that is prepared; it isn't made.
fn prepared(plan: &mut Plan, request: &Request) -> MemoryOutcome {
    match plan.prepare(request) {
        Ok(_) => MemoryOutcome::Done,
        Err(Refusal::Memory) => MemoryOutcome::WithoutMemory,
        Err(_) => MemoryOutcome::Otherwise,
    }
}

// Whether a request is refused while all memory is taken, and prepared once enough is given back; or refused then for another
// cause.
fn is_prepared_at_last(alloc: Global, plan: &mut Plan, request: &Request) -> bool {
    let sweep = swept(alloc, SPARES, || prepared(plan, request));
    sweep.is_done_after(0) || sweep.last == MemoryOutcome::Otherwise
}

// The reply to a request that is prepared, and carried out while all memory is taken; nothing where any is left.
fn applied_without(alloc: Global, plan: &mut Plan, request: &Request) -> Option<Reply> {
    match plan.prepare(request) {
        Ok(prepared) => {
            let held = Held::all(alloc);
            let named = plan.apply(prepared);
            if held.give_back() {
                Some(Reply::Accepted { named })
            } else {
                None
            }
        }
        Err(refusal) => Some(Reply::Refused(refusal)),
    }
}

// Whether a request in want of memory is answered as a turn says.
fn is_reply_told(alloc: Global, plan: &mut Plan, request: &Request, turn: &str) -> bool {
    match applied_without(alloc, plan, request) {
        Some(reply) => is_told(&reply, turn) == Some(true),
        None => false,
    }
}

// Whether a turn in want of memory is answered as it says.
fn is_answered(alloc: Global, plan: &mut Plan, turn: &str) -> bool {
    match request(alloc, turn) {
        Some(request) => {
            is_prepared_at_last(alloc, plan, &request) && is_reply_told(alloc, plan, &request, turn)
        }
        None => false,
    }
}

impl Player for Wanting {
    fn begin(alloc: Global) -> Option<Wanting> {
        Some(Wanting {
            alloc,
            plan: Plan::empty(alloc),
        })
    }

    fn after(mut self, line: &str) -> Option<Wanting> {
        if is_answered(self.alloc, &mut self.plan, line) {
            Some(self)
        } else {
            None
        }
    }
}

// What comes of the replies to a run of one request.
fn outcome(replies: &[Reply]) -> MemoryOutcome {
    match replies {
        [Reply::Refused(Refusal::Memory)] => MemoryOutcome::WithoutMemory,
        [Reply::Accepted { .. }] => MemoryOutcome::Done,
        _ => MemoryOutcome::Otherwise,
    }
}

// What comes of a run.
fn run(plan: &mut Plan, requests: &[Request]) -> MemoryOutcome {
    match plan.run(requests) {
        Ok(replies) => outcome(&replies),
        Err(_) => MemoryOutcome::WithoutMemory,
    }
}

// Whether a run is refused while all memory is taken, and made once enough is given back.
fn is_run_at_last(alloc: Global, plan: &mut Plan, requests: &[Request]) -> bool {
    swept(alloc, SPARES, || run(plan, requests)).is_done_after(0)
}

/// A run of a load is refused while all memory is taken, and made once enough is given back.
pub fn run_is_made_at_last(alloc: Global) -> bool {
    match request(alloc, "22:00 load OPEN DAILY TWO_RUNS | names DAILY.10") {
        Some(request) => is_run_at_last(alloc, &mut Plan::empty(alloc), &[request]),
        None => false,
    }
}
