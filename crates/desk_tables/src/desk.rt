// The desk: its plan and the receipts of trackers, and the store in which their rows stand.
ghost use Rattle.std.specs.Prelude.{◌≡◌, ◌≢◌, true, false, IfOk, IfErr, IsErrOf, IsTrue, None, Some};
ghost use Rattle.std.specs.FinMap.{get};
ghost use Rattle.sqlite.specs.Held.{state};
ghost use Rattle.sqlite.specs.State.{HasCleanDisk, Survives};
ghost use Rattle.store_schema.specs.Tables.{no_schema};
ghost use Rattle.plan_basics.specs.declared.Refusal.{Refusal};
ghost use Rattle.plan_core.specs.Provided.{StartsAreProvided};
ghost use Rattle.store_reads.specs.Reads.{OnlyReads};
ghost use Rattle.store_reads.specs.Versions.{HasTableQuantity};
ghost use Rattle.plan_records.specs.Answer.{answer_of, refused};
ghost use Rattle.plan_records.specs.Run.{Answers, State, empty_state, numbered, plain, usable};
ghost use Rattle.plan_records.specs.Schedules.{found, nothing, opening, stop, stopped, IsDeskState};
ghost use Rattle.plan_records.specs.Step.{AnswersAgain};
ghost use Rattle.desk_tables.specs.Calls.{change_of, named_by, state_after, IsPreparedAt};
ghost use Rattle.store_schema.specs.Schema.{schema_of};
ghost use Rattle.store_schema.specs.declared.texts.Version.{Version};
ghost use Rattle.store_schema.specs.declared.texts.Version.TheVariants.{First};
ghost use Rattle.desk_tables.specs.Desk.{state_of, usability, IsCarriedOut, IsClean, HasFirstTables, HasTables, HoldsNoStateIn, HoldsState, TreesHold, TreesHoldIn};
ghost use Rattle.desk_tables.specs.Errors.{AreErrorRows};
ghost use Rattle.desk_tables.specs.Faults.{IsOpeningRefusal};
ghost use Rattle.desk_tables.specs.Opening.{IsOpenedFirst};
ghost use Rattle.desk_tables.specs.Shut.{may_have_shut, IsOpenAfter};
ghost use Rattle.desk_tables.specs.Stops.{connection_after, AreLeftBy, AreLeftByMaking, AreLeftIn, MayCommitStep, StopsLeave};
ghost use Rattle.plan_writes.specs.Within.{LeavesMade, Rewrites};
ghost use Rattle.tracker_receipts.specs.Judging.{numbered_by};

use super::calls::PreparedCall;
use super::errors::ErrorRows;
use super::faults::request_refusal;
use super::making::make_tables;
use super::opening::found_state;
use super::writing::write_call;
use crate::numbering::{NumberedOutcome, prepare_numbered};
use plan_basics::{Refusal, TrackerName};
use plan_core::Plan;
use plan_records::{Reply, Request};
use sqlite::{Alter, Connection};
use std::alloc::{AllocError, Global};
use std::marker::Model;
use tracker_receipts::Receipts;

/// A plan, the receipts of trackers, and the store in which the rows of both stand as tables. Contracts see it as that plan
/// and those receipts, whether requests are carried out, and the connection to the store.
///
/// What a clause `stops` says of a stop it says of one at the end of the call. One in the middle is the end of the call over
/// a store that gives up at that moment, since each clause holds over every store.
#[derive(Drop)]
pub struct Desk<S: Alter + Drop> {
    alloc: Global,
    plan: Plan,
    receipts: Receipts,
    is_usable: bool,
    conn: Connection<S>,
}

impl<S: Alter + Drop> Model for Desk<S> {
    ghost use Rattle.desk_tables.specs.Desk.{DeskState, desk_code, IsKept};

    ghost Value = { DeskState S };

    ghost coded = { desk_code S.code };

    ghost view = { λ d. record { plan = d.plan.plan; receipts = d.receipts; is_usable = d.is_usable; conn = d.conn } };

    ghost invariant = { λ d. IsKept S.Store (record { plan = d.plan.plan; receipts = d.receipts; is_usable = d.is_usable; conn = d.conn }) };
}

// Whether a transaction is open on a connection, over which no desk is made or opened then.
fn is_busy<S: Alter>(conn: &Connection<S>) -> bool
    ensures value { result ≡ conn.now.in_transaction }
    ensures settled { result ≡ false → IsTrue (state S.Store conn.now).is_open → (state S.Store conn.now).now ≡ (state S.Store conn.now).committed }
{
    !conn.is_autocommit()
}

impl<S: Alter + Drop> Desk<S> {
    /// Makes the tables in a database that has none of them, and a desk over it at which nothing is loaded and no
    /// receipt is kept.
    ///
    /// Refused as `Damaged` where one of the tables' names is taken, and, where the disk returns what was written, never in
    /// a database that had no table, no index and no view when it was last committed (`damaged`); as `Memory` for want of
    /// memory, as `Store` where a transaction is open on the connection (`busy`) and for any other fault of the store. The
    /// connection is given back. Where the disk returns what was written and the store is open, it holds what it held
    /// (`unchanged`).
    ///
    /// Where the disk returns what was written, the store of the desk is open (`is_open`), and so is one after `Damaged`
    /// (`still_open`). A stop in it, of a store that was open and in which nothing was made, leaves what there was, or the
    /// tables of such a desk (`stops`); a stop after it leaves the tables of the desk (`stops_after`).
    pub fn create(
        alloc: Global,
        mut conn: Connection<S>,
    ) -> Result<Desk<S>, (Refusal, Connection<S>)>
        ensures empty { IfOk result (λ desk. state_of desk ≡ empty_state) }
        ensures usable { IfOk result (λ desk. desk.is_usable ≡ true) }
        ensures is_open { IfOk result (λ desk. HasCleanDisk (state S.Store desk.conn) → IsTrue (state S.Store desk.conn).is_open) }
        ensures tables { IfOk result (λ desk. HasCleanDisk (state S.Store desk.conn) → (state S.Store conn).committed.schema ≡ no_schema → HoldsState empty_state (state S.Store desk.conn).committed) }
        ensures refused { IfErr result (λ e. IsOpeningRefusal e.0) }
        ensures busy { conn.in_transaction ≡ true → IsErrOf result (Refusal.Store, conn) }
        ensures still_open { IfErr result (λ e. e.0 ≡ Refusal.Damaged → HasCleanDisk (state S.Store e.1) → IsTrue (state S.Store e.1).is_open) }
        ensures damaged { IfErr result (λ e. e.0 ≡ Refusal.Damaged → HasCleanDisk (state S.Store e.1) → (state S.Store conn).committed.schema ≢ no_schema) }
        ensures unchanged { IfErr result (λ e. HasCleanDisk (state S.Store e.1) → IsOpenAfter (refused e.0) (state S.Store e.1) → (state S.Store e.1).committed ≡ (state S.Store conn).committed) }
        ensures stops_after { IfOk result (λ desk. IsTrue (state S.Store desk.conn).is_open → HasTables (state S.Store desk.conn) → StopsLeave (state S.Store desk.conn) (AreLeftBy (state_of desk) (Some usable) stop)) }
        ensures stops { IsTrue (state S.Store conn).is_open → (state S.Store conn).committed.schema ≡ no_schema → StopsLeave (state S.Store (connection_after result)) (AreLeftByMaking (state S.Store conn).committed.trees) }
    {
        if is_busy(&conn) {
            return Err((Refusal::Store, conn));
        }
        let receipts = match Receipts::new(alloc) {
            Ok(receipts) => receipts,
            Err(AllocError) => return Err((Refusal::Memory, conn)),
        };
        match make_tables(&mut conn) {
            Ok(()) => Ok(Desk {
                alloc,
                plan: Plan::empty(alloc),
                receipts,
                is_usable: true,
                conn,
            }),
            Err(refusal) => Err((refusal, conn)),
        }
    }

    /// Opens the desk whose tables a database holds: its plan and its receipts are the sound plan and the well formed
    /// receipts that have just their rows. Tables of the first version, in which no quantity and no amount is kept, are
    /// then made those of the second, in one transaction.
    ///
    /// Refused as `Damaged` where the tables hold the rows of no such plan and receipts: each column is compared, those too
    /// that follow from others, as a status or a latest start; no receipt is kept before a plan is loaded; a table that
    /// lacks is no plan's; and so is one beside tables of the first version that has the name of one that they lack. As
    /// `Memory` for want of memory, as `Store` where a transaction is open on the connection (`busy`) and for any other fault
    /// of the store. Where there is a table `quantity`, as among a desk's own, and the store was open, nothing is committed
    /// (`reads`, `unchanged`). Where it is refused the connection is given back; where then the disk returns what was written
    /// and the store is open, it holds what it held (`undone`).
    ///
    /// Where the disk returns what was written, the store of the desk is open (`is_open`), and so is one after `Damaged`
    /// (`still_open`). Of trees that a desk, or a stop at one, left, it finds just the state that they hold (`found`,
    /// `found_first`), and doesn't find them damaged (`undamaged`). A stop in it, of a store that was open, leaves what there
    /// was (`stops`), or of tables of the first version those of the second (`stops_first`); a stop after it leaves the
    /// tables of the desk (`stops_after`).
    pub fn open(alloc: Global, mut conn: Connection<S>) -> Result<Desk<S>, (Refusal, Connection<S>)>
        ensures sound { IfOk result (λ desk. IsDeskState (state_of desk)) }
        ensures usable { IfOk result (λ desk. desk.is_usable ≡ true) }
        ensures is_open { IfOk result (λ desk. HasCleanDisk (state S.Store desk.conn) → IsTrue (state S.Store desk.conn).is_open) }
        ensures tables { IfOk result (λ desk. HasCleanDisk (state S.Store desk.conn) → HasTables (state S.Store desk.conn) → HoldsState (state_of desk) (state S.Store desk.conn).committed) }
        ensures reads { IfOk result (λ desk. IsTrue (state S.Store conn).is_open → HasTableQuantity (state S.Store conn).committed.schema → OnlyReads (state S.Store conn) (state S.Store desk.conn)) }
        ensures of_first { IfOk result (λ desk. HasCleanDisk (state S.Store desk.conn) → HasFirstTables (state S.Store conn) → IsOpenedFirst (state_of desk) (state S.Store conn) (state S.Store desk.conn)) }
        ensures kept { IfOk result (λ desk. HasCleanDisk (state S.Store desk.conn) → IsTrue (state S.Store conn).is_open) }
        ensures refused { IfErr result (λ e. IsOpeningRefusal e.0) }
        ensures busy { conn.in_transaction ≡ true → IsErrOf result (Refusal.Store, conn) }
        ensures clean { HasCleanDisk (state S.Store (connection_after result)) → HasCleanDisk (state S.Store conn) }
        ensures still_open { IfErr result (λ e. e.0 ≡ Refusal.Damaged → HasCleanDisk (state S.Store e.1) → IsTrue (state S.Store e.1).is_open) }
        ensures damaged { IfErr result (λ e. e.0 ≡ Refusal.Damaged → HasCleanDisk (state S.Store e.1) → (version : Version) → (state S.Store e.1).committed.schema ≡ schema_of version → HoldsNoStateIn version (state S.Store e.1).committed) }
        ensures unchanged { IfErr result (λ e. IsTrue (state S.Store conn).is_open → HasTableQuantity (state S.Store conn).committed.schema → OnlyReads (state S.Store conn) (state S.Store e.1)) }
        ensures undone { IfErr result (λ e. HasCleanDisk (state S.Store e.1) → IsOpenAfter (refused e.0) (state S.Store e.1) → (state S.Store e.1).committed ≡ (state S.Store conn).committed) }
        ensures found { IfOk result (λ desk. HasCleanDisk (state S.Store desk.conn) → (s : State) → IsDeskState s → TreesHold s (state S.Store conn).committed.trees → HasTables (state S.Store desk.conn) × AreLeftBy s None (opening (found (state_of desk))) (state S.Store desk.conn).committed.trees) }
        ensures found_first { IfOk result (λ desk. HasCleanDisk (state S.Store desk.conn) → (s : State) → IsDeskState s → TreesHoldIn First s (state S.Store conn).committed.trees → HasTables (state S.Store desk.conn) × AreLeftIn First s None (opening (found (state_of desk))) (state S.Store desk.conn).committed.trees) }
        ensures undamaged { IfErr result (λ e. e.0 ≡ Refusal.Damaged → HasCleanDisk (state S.Store e.1) → (s : State) → IsDeskState s → (version : Version) → ¬ TreesHoldIn version s (state S.Store conn).committed.trees) }
        ensures stops_after { IfOk result (λ desk. IsTrue (state S.Store desk.conn).is_open → HasTables (state S.Store desk.conn) → StopsLeave (state S.Store desk.conn) (AreLeftBy (state_of desk) (Some usable) stop)) }
        ensures stops { IsTrue (state S.Store conn).is_open → (s : State) → TreesHold s (state S.Store conn).committed.trees → StopsLeave (state S.Store (connection_after result)) (AreLeftBy s None (opening nothing)) }
        ensures stops_first { IsTrue (state S.Store conn).is_open → (s : State) → IsDeskState s → TreesHoldIn First s (state S.Store conn).committed.trees → StopsLeave (state S.Store (connection_after result)) (AreLeftIn First s None (opening nothing)) }
    {
        if is_busy(&conn) {
            return Err((Refusal::Store, conn));
        }
        let (plan, receipts) = match found_state(alloc, &mut conn) {
            Ok(found) => found,
            Err(refusal) => return Err((refusal, conn)),
        };
        Ok(Desk {
            alloc,
            plan,
            receipts,
            is_usable: true,
            conn,
        })
    }

    /// The plan, which the tables hold.
    pub fn plan(&self) -> &Plan
        ensures plan { result.now.plan ≡ self.now.plan }
        ensures sound { IsDeskState (state_of self.now) }
        ensures tables { IsClean (state S.Store self.now.conn) → HasTables (state S.Store self.now.conn) → HoldsState (state_of self.now) (state S.Store self.now.conn).committed }
    {
        &self.plan
    }

    /// The last receipt of each tracker, which the tables hold.
    pub fn receipts(&self) -> &Receipts
        ensures { result.now ≡ self.now.receipts }
    {
        &self.receipts
    }

    /// Whether requests are carried out: not after a fault of the store, until the desk is opened again.
    pub fn is_usable(&self) -> bool
        ensures { result ≡ self.now.is_usable }
    {
        self.is_usable
    }

    /// Gives the connection back. No transaction is open, so that a desk can be opened over it again, unless a fault has shut
    /// the store.
    pub fn close(self) -> Connection<S>
        ensures conn { result ≡ self.conn }
        ensures idle { result.in_transaction ≡ false }
    {
        self.conn
    }

    /// The operations in error, one after the other, in key order; none before a plan is loaded. Refused as `Reopen` after a
    /// fault of the store.
    // It takes `&self`: a `&mut` that goes into the result has no value after the call that a clause could name.
    pub fn errors(&self) -> Result<ErrorRows<'_, S>, Refusal>
        ensures rows { IfOk result (λ rows. AreErrorRows self.now.plan.contents rows) }
        ensures usable { IfOk result (λ rows. self.now.is_usable ≡ true) }
        ensures refused { IfErr result (λ r. (r ≡ Refusal.Reopen) × (self.now.is_usable ≡ false)) }
    {
        if !self.is_usable {
            return Err(Refusal::Reopen);
        }
        Ok(ErrorRows::new(self.plan.ops(), &self.conn))
    }

    // Writes what a prepared call changes, and takes its step only once that is committed.
    fn carry_out(&mut self, call: PreparedCall) -> Reply
        requires prepared { IsPreparedAt (state_of self.old) call }
        requires usable { self.old.is_usable ≡ true }
        ensures reply { IsCarriedOut self.old (named_by call) (state_after (state_of self.old) call) (answer_of result) self.new }
        ensures clean { IsClean (state S.Store self.new.conn) → IsClean (state S.Store self.old.conn) }
        ensures is_open { HasCleanDisk (state S.Store self.new.conn) → may_have_shut (answer_of result) ≡ false → IsTrue (state S.Store self.new.conn).is_open }
        ensures tables { HasCleanDisk (state S.Store self.new.conn) → IsOpenAfter (answer_of result) (state S.Store self.new.conn) → HasTables (state S.Store self.old.conn) → HoldsState (state_of self.new) (state S.Store self.new.conn).committed }
        ensures refused { HasCleanDisk (state S.Store self.new.conn) → (r : Refusal) → answer_of result ≡ refused r → IsOpenAfter (refused r) (state S.Store self.new.conn) → (state S.Store self.new.conn).committed ≡ (state S.Store self.old.conn).committed }
        ensures failed { (r : Refusal) → answer_of result ≡ refused r → IsTrue (may_have_shut (refused r)) }
        ensures holds { IsClean (state S.Store self.new.conn) → HasTables (state S.Store self.new.conn) → HoldsState (state_of self.new) (state S.Store self.new.conn).committed }
        ensures survives { Survives (state S.Store self.old.conn) (state S.Store self.new.conn) (LeavesMade (Rewrites (change_of call)) (state S.Store self.old.conn)) }
    {
        match write_call(&mut self.conn, &call) {
            Ok(()) => Reply::Accepted {
                named: call.apply(&mut self.plan, &mut self.receipts),
            },
            Err(error) => match request_refusal(&error) {
                Refusal::Memory => Reply::Refused(Refusal::Memory),
                _ => {
                    self.is_usable = false;
                    Reply::Refused(Refusal::Store)
                }
            },
        }
    }

    /// Makes a request: an accepted one changes the tables, in one transaction, and then the plan. A refused one changes
    /// neither. It is refused as `Reopen` after a fault of the store, else for the least number that applies; as `Memory`
    /// for want of memory, as `Store` for any other fault of the store.
    ///
    /// Where the disk returns what was written and the store was open, the tables hold the rows of the plan and the receipts
    /// and no others (`tables`), and the store is open (`is_open`): after each answer but `Memory` and `Store`, and after
    /// those where it is open all the same. Any other refusal leaves the connection as it was (`untouched`).
    ///
    /// A stop in it, of a store that was open and a desk's tables, leaves what there was, or the tables after an accepted
    /// step by it (`stops`). A stop after it, where the store is open then, leaves the tables of the plan and the receipts
    /// that the desk has come to: what was answered accepted is in (`stops_after`).
    pub fn call(&mut self, request: &Request) -> Reply
        ensures answers { Answers (state_of self.old) (usability self.old.is_usable) (plain request.now) (answer_of result) (state_of self.new) (usability self.new.is_usable) }
        ensures sound { IsDeskState (state_of self.new) }
        ensures starts { StartsAreProvided self.old.plan request.now (answer_of result) self.new.plan }
        ensures clean { IsClean (state S.Store self.new.conn) → IsClean (state S.Store self.old.conn) }
        ensures is_open { HasCleanDisk (state S.Store self.new.conn) → IsTrue (state S.Store self.old.conn).is_open → may_have_shut (answer_of result) ≡ false → IsTrue (state S.Store self.new.conn).is_open }
        ensures tables { HasCleanDisk (state S.Store self.new.conn) → IsTrue (state S.Store self.old.conn).is_open → IsOpenAfter (answer_of result) (state S.Store self.new.conn) → HasTables (state S.Store self.old.conn) → HoldsState (state_of self.new) (state S.Store self.new.conn).committed }
        ensures refused { HasCleanDisk (state S.Store self.new.conn) → (r : Refusal) → answer_of result ≡ refused r → IsOpenAfter (refused r) (state S.Store self.new.conn) → (state S.Store self.new.conn).committed ≡ (state S.Store self.old.conn).committed }
        ensures untouched { (r : Refusal) → answer_of result ≡ refused r → may_have_shut (refused r) ≡ false → self.new.conn ≡ self.old.conn }
        ensures survives { Survives (state S.Store self.old.conn) (state S.Store self.new.conn) (MayCommitStep (state S.Store self.old.conn) (state_of self.old) (plain request.now)) }
        ensures stops_after { IsTrue (state S.Store self.new.conn).is_open → HasTables (state S.Store self.new.conn) → StopsLeave (state S.Store self.new.conn) (AreLeftBy (state_of self.new) (Some (usability self.new.is_usable)) stop) }
        ensures stops { IsTrue (state S.Store self.old.conn).is_open → HasTables (state S.Store self.old.conn) → StopsLeave (state S.Store self.new.conn) (AreLeftBy (state_of self.old) (Some (usability self.old.is_usable)) (stopped (plain request.now) None)) }
    {
        if !self.is_usable {
            return Reply::Refused(Refusal::Reopen);
        }
        match self.plan.prepare(request) {
            Ok(prepared) => self.carry_out(PreparedCall::Plain(prepared)),
            Err(refusal) => Reply::Refused(refusal),
        }
    }

    /// Makes a tracker's numbered request, which was read from this text: as `call` does where it has the next number after
    /// the tracker's last accepted request, and then an accepted one becomes the tracker's receipt, in the same transaction
    /// as its changes. It is refused as `Limit` too where there is no room for that receipt.
    ///
    /// A repeated request, of the last number and the last text, is answered with the keys that were named then, whatever it
    /// asks; it is refused as `Reused` where its text is another, as `Gap` for a number too far on, as `Old` for one of the
    /// past or 0. In all these cases nothing changes, and nothing is written (`again`). After a fault of the store each is
    /// refused as `Reopen`.
    ///
    /// A stop in it, of a store that was open and a desk's tables, leaves what there was, or the tables after an accepted
    /// step by it: with the receipt, if with its changes (`stops`). A stop after it, where the store is open then, leaves the
    /// tables of the plan and the receipts that the desk has come to (`stops_after`).
    pub fn call_numbered(
        &mut self,
        tracker: &TrackerName,
        number: u64,
        text: &[u8],
        request: &Request,
    ) -> Reply
        ensures answers { Answers (state_of self.old) (usability self.old.is_usable) (numbered (numbered_by tracker.now number text.now request.now)) (answer_of result) (state_of self.new) (usability self.new.is_usable) }
        ensures sound { IsDeskState (state_of self.new) }
        ensures starts { StartsAreProvided self.old.plan request.now (answer_of result) self.new.plan }
        ensures clean { IsClean (state S.Store self.new.conn) → IsClean (state S.Store self.old.conn) }
        ensures is_open { HasCleanDisk (state S.Store self.new.conn) → IsTrue (state S.Store self.old.conn).is_open → may_have_shut (answer_of result) ≡ false → IsTrue (state S.Store self.new.conn).is_open }
        ensures tables { HasCleanDisk (state S.Store self.new.conn) → IsTrue (state S.Store self.old.conn).is_open → IsOpenAfter (answer_of result) (state S.Store self.new.conn) → HasTables (state S.Store self.old.conn) → HoldsState (state_of self.new) (state S.Store self.new.conn).committed }
        ensures refused { HasCleanDisk (state S.Store self.new.conn) → (r : Refusal) → answer_of result ≡ refused r → IsOpenAfter (refused r) (state S.Store self.new.conn) → (state S.Store self.new.conn).committed ≡ (state S.Store self.old.conn).committed }
        ensures untouched { (r : Refusal) → answer_of result ≡ refused r → may_have_shut (refused r) ≡ false → self.new.conn ≡ self.old.conn }
        ensures again { AnswersAgain (get self.old.receipts tracker.now) (numbered_by tracker.now number text.now request.now) (answer_of result) → self.new ≡ self.old }
        ensures survives { Survives (state S.Store self.old.conn) (state S.Store self.new.conn) (MayCommitStep (state S.Store self.old.conn) (state_of self.old) (numbered (numbered_by tracker.now number text.now request.now))) }
        ensures stops_after { IsTrue (state S.Store self.new.conn).is_open → HasTables (state S.Store self.new.conn) → StopsLeave (state S.Store self.new.conn) (AreLeftBy (state_of self.new) (Some (usability self.new.is_usable)) stop) }
        ensures stops { IsTrue (state S.Store self.old.conn).is_open → HasTables (state S.Store self.old.conn) → StopsLeave (state S.Store self.new.conn) (AreLeftBy (state_of self.old) (Some (usability self.old.is_usable)) (stopped (numbered (numbered_by tracker.now number text.now request.now)) None)) }
    {
        if !self.is_usable {
            return Reply::Refused(Refusal::Reopen);
        }
        match prepare_numbered(
            &mut self.plan,
            &self.receipts,
            tracker,
            number,
            text,
            request,
        ) {
            Ok(NumberedOutcome::Again(named)) => Reply::Accepted { named },
            Ok(NumberedOutcome::New(step)) => self.carry_out(PreparedCall::Numbered(step)),
            Err(refusal) => Reply::Refused(refusal),
        }
    }

    /// What memory is taken from. Its clauses say what holds of each desk.
    pub(crate) fn alloc(&self) -> Global
        ensures sound { IsDeskState (state_of self.now) }
        ensures tables { IsClean (state S.Store self.now.conn) → HasTables (state S.Store self.now.conn) → HoldsState (state_of self.now) (state S.Store self.now.conn).committed }
    {
        self.alloc
    }
}
