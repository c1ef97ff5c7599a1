// A desk over files in memory, at which a plan is loaded.
ghost use Rattle.std.specs.Prelude.{◌≡◌, IfOk, IfErr, true, List};
ghost use Rattle.command_answers.specs.Opened.{IsWhyNoDesk};
ghost use Rattle.plan_basics.specs.declared.keys.OpKey.{OpKey};
ghost use Rattle.plan_records.specs.Answer.{accepted, answer_of};
ghost use Rattle.plan_records.specs.Run.{Answers, empty_state, plain};
ghost use Rattle.desk_tables.specs.Desk.{state_of, usability};
ghost use Rattle.desk_tables.specs.Faults.{IsOpeningRefusal};
ghost use Rattle.command_desks.specs.Loaded.{IsLoadRefusal, IsLoaded, load_request};

use command_answers::{Fault, NoDesk};
use desk_tables::Desk;
use plan_records::{PlanDraft, Reply, Request, What};
use sqlite::{Alter, Connection, FileStore, Files, Options};
use sqlite_disk::Memory;
use std::alloc::Global;

// A desk over a connection to a database that has no table: nothing is loaded there.
fn new_desk<S: Alter + Drop>(alloc: Global, conn: Connection<S>) -> Result<Desk<S>, NoDesk>
    ensures empty { IfOk result (λ desk. state_of desk ≡ empty_state) }
    ensures usable { IfOk result (λ desk. desk.is_usable ≡ true) }
    ensures refused { IfErr result (IsWhyNoDesk IsOpeningRefusal) }
{
    match Desk::create(alloc, conn) {
        Ok(desk) => Ok(desk),
        Err((refusal, _)) => Err(NoDesk::Refused(refusal)),
    }
}

// What a desk answers to the load of a draft at a minute.
fn load_reply<S: Alter + Drop>(desk: &mut Desk<S>, at: i64, draft: Option<PlanDraft>) -> Reply
    ensures { Answers (state_of desk.old) (usability desk.old.is_usable) (plain (load_request at draft)) (answer_of result) (state_of desk.new) (usability desk.new.is_usable) }
{
    let load = Request {
        at,
        what: What::Load(draft),
    };
    desk.call(&load)
}

// A desk at which nothing is loaded, once a draft is; or the refusal of the load.
fn desk_with<S: Alter + Drop>(
    desk: Desk<S>,
    at: i64,
    draft: Option<PlanDraft>,
) -> Result<Desk<S>, NoDesk>
    requires empty { state_of desk ≡ empty_state }
    requires usable { desk.is_usable ≡ true }
    ensures loaded { IfOk result (λ made. (named : List OpKey) × IsLoaded at draft (accepted named) (state_of made)) }
    ensures usable { IfOk result (λ made. made.is_usable ≡ true) }
    ensures refused { IfErr result (IsWhyNoDesk (IsLoadRefusal at draft)) }
{
    let mut desk = desk;
    match load_reply(&mut desk, at, draft) {
        Reply::Accepted { .. } => Ok(desk),
        Reply::Refused(refusal) => Err(NoDesk::Refused(refusal)),
    }
}

// A new desk over a connection at which a draft was loaded; or why there is none.
fn loaded_over<S: Alter + Drop>(
    alloc: Global,
    conn: Connection<S>,
    at: i64,
    draft: Option<PlanDraft>,
) -> Result<Desk<S>, NoDesk>
    ensures loaded { IfOk result (λ desk. (named : List OpKey) × IsLoaded at draft (accepted named) (state_of desk)) }
    ensures usable { IfOk result (λ desk. desk.is_usable ≡ true) }
    ensures refused { IfErr result (IsWhyNoDesk (IsLoadRefusal at draft)) }
{
    match new_desk(alloc, conn) {
        Ok(desk) => desk_with(desk, at, draft),
        Err(none) => Err(none),
    }
}

/// A desk over files in memory at which a plan was loaded; or why there is none, as the refusal of the load.
pub fn loaded_desk(
    alloc: Global,
    at: i64,
    draft: Option<PlanDraft>,
) -> Result<Desk<FileStore<Memory>>, NoDesk>
    ensures loaded { IfOk result (λ desk. (named : List OpKey) × IsLoaded at draft (accepted named) (state_of desk)) }
    ensures usable { IfOk result (λ desk. desk.is_usable ≡ true) }
    ensures refused { IfErr result (IsWhyNoDesk (IsLoadRefusal at draft)) }
{
    let files = Files {
        log: Memory::new(alloc),
        db: Memory::new(alloc),
    };
    match Connection::open_files(alloc, files, Options::new(0)) {
        Ok(conn) => loaded_over(alloc, conn, at, draft),
        Err(_) => Err(NoDesk::Faulty(Fault::Memory)),
    }
}
