// The law of schedules: what calls, stops and openings of a desk leave, one after another.
//
// What an event leaves is a definition of plan_records; that each call of a desk keeps to it, its own clauses say.

ghost use Rattle.plan_laws.specs.Laws.{EverySchedule, FaultsLeaveAsStops};

/// Whatever calls are made at a desk that was just created, or at one whose tables were of the first version, wherever they
/// are stopped, and however often it is opened again: no opening finds the tables damaged, and each finds what a run leaves over the calls that were answered accepted
/// and over some of the stopped. Of each tracker's number one request at most has acted; one that was answered accepted has
/// acted, and each accepted reply for it names the same keys.
pub fn every_schedule()
    ensures { EverySchedule }
{}

/// A call that is answered a fault of the store may leave what a stop in it may leave; its desk stays, to be opened again.
pub fn faults_leave_as_stops()
    ensures { FaultsLeaveAsStops }
{}
