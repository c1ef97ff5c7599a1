// A plan in memory, and at how many operation records it looked for the last request: beside turns it knows lines as `looks 164`,
// so many at most.
use crate::answers::is_told;
use crate::playing::Player;
use crate::requests::request;
use plan_core::Plan;
use plan_records::{Reply, Request};
use std::alloc::Global;

/// A plan, and at how many operation records it looked.
#[derive(Drop)]
pub struct InMemory {
    alloc: Global,
    plan: Plan,
    work: u64,
}

impl InMemory {
    // The reply to a request, which is prepared and applied.
    fn reply(&mut self, request: &Request) -> Reply {
        match self.plan.prepare(request) {
            Ok(prepared) => {
                self.work = prepared.work();
                Reply::Accepted {
                    named: self.plan.apply(prepared),
                }
            }
            Err(refusal) => Reply::Refused(refusal),
        }
    }

    // Whether a turn is answered as it says.
    fn is_answered(&mut self, turn: &str) -> Option<bool> {
        match request(self.alloc, turn) {
            Some(request) => is_told(&self.reply(&request), turn),
            None => None,
        }
    }

    // Whether a line is so.
    fn is_so(&mut self, line: &str) -> Option<bool> {
        match line.strip_prefix("looks ") {
            Some(told) => {
                let most: u64 = told.parse().ok()?;
                Some(self.work <= most)
            }
            None => self.is_answered(line),
        }
    }
}

impl Player for InMemory {
    fn begin(alloc: Global) -> Option<InMemory> {
        Some(InMemory {
            alloc,
            plan: Plan::empty(alloc),
            work: 0,
        })
    }

    fn after(mut self, line: &str) -> Option<InMemory> {
        if self.is_so(line) == Some(true) {
            Some(self)
        } else {
            None
        }
    }
}
