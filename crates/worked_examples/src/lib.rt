//! Small plans that are written out, and what they come to by the definitions: statuses, latest starts, refusals, choices,
//! whole steps, and the plan that a text denotes. A definition that said something else would be refused here.
#![tactic(auto)]

ghost use Rattle.std.specs.Prelude.{pos, negsuc, None, []};
ghost use Rattle.plan_model.specs.Plan.{no_plan};
ghost use Rattle.plan_model.specs.Status.{HasStatus};
ghost use Rattle.plan_drafts.specs.Drafts.{IsDraft};
ghost use Rattle.plan_drafts.specs.Records.{Denotes};
ghost use Rattle.worked_examples.specs.DayText.{day_records};
ghost use Rattle.plan_records.specs.Step.{Step};
ghost use Rattle.plan_records.specs.declared.What.{What};
ghost use Rattle.plan_records.specs.Answer.{refused, accepted};
ghost use Rattle.plan_basics.specs.declared.Refusal.{Refusal};
ghost use Rattle.status_rules.specs.declared.Status.{Status};
ghost use Rattle.worked_examples.specs.Statements.{MomentsOfTheNight, LatestStartsOfTheNight, StatusesWhenLoaded, StatusesAfterTheThird, StatusesOfHeld, StatusesOfPassed, StartsWhileClosed, PairThatLeadsBack, DeletionWhileStarted, SecondLoad, ChoicesForTwoServers, ChoiceForFixedResource, TickThatNames, LatestStartsOfOverdueWork, KeptResource, LoadThatNames, LoadOfTheNight, EndOfTheSecond, RerunOfTheThird, RerunOfTheFirst, BackupAdded, DailyLeaves, NumberedRequest, NumberedAgain, RunToldTwice, TickTwice, EndTwice, ReportStopped, NoOtherIsFound, ReportActsOnce};
ghost use Rattle.worked_examples.specs.Ahead.{ForecastOfTen};
ghost use Rattle.worked_examples.specs.Begun.{StartsThatCount, ThirdLastsAnHour};
ghost use Rattle.worked_examples.specs.Day.{day, idle, loaded_at, first, second, evening};

/// The first operation is arriving, the second waits for it.
pub fn statuses()
    ensures first { HasStatus day first Status.Arriving }
    ensures second { HasStatus day second Status.Waiting }
{}

/// Before a plan is loaded: a tick before the clock, one out of range, one in range, and a text that denotes nothing.
pub fn before_load()
    ensures past { Step no_plan (record { at = negsuc 0; what = What.Tick }) (refused Refusal.Past) no_plan }
    ensures out_of_range { Step no_plan (record { at = pos 52596000; what = What.Tick }) (refused Refusal.MomentRange) no_plan }
    ensures not_loaded { Step no_plan (record { at = pos evening; what = What.Tick }) (refused Refusal.NotLoaded) no_plan }
    ensures bad_text { Step no_plan (record { at = pos evening; what = What.Load None }) (refused Refusal.BadPlan) no_plan }
{}

/// An operation that waits can't be ended.
pub fn end_of_waiting()
    ensures { Step (loaded_at 0 day) (record { at = pos evening; what = What.Ended second }) (refused Refusal.WrongStatus) (loaded_at 0 day) }
{}

/// A tick on a plan with nothing in it is accepted, names nothing and sets the clock.
pub fn idle_tick()
    ensures { Step idle (record { at = pos evening; what = What.Tick }) (accepted []) (record idle { clock = evening }) }
{}

/// The minutes in the night's plan are those of its civil dates and times.
pub fn moments_of_the_night()
    ensures { MomentsOfTheNight }
{}

/// In the night's plan each operation's latest start leaves time for itself and all that follow it.
pub fn latest_starts_of_the_night()
    ensures { LatestStartsOfTheNight }
{}

/// In the night's plan each operation waits for the one before it; on a workstation that doesn't report, or as a NOP, it completes
/// by itself, unless it is held.
pub fn statuses_of_the_night()
    ensures loaded { StatusesWhenLoaded }
    ensures third_done { StatusesAfterTheThird }
    ensures held { StatusesOfHeld }
    ensures passed { StatusesOfPassed }
{}

/// PAYROLL's third lasts an hour in each forecast: from its reported start; where that isn't known, or it was only named, from the
/// forecast's moment on. Where completion alone is reported a start counts from the not-before.
pub fn starts_of_the_night()
    ensures lasts { ThirdLastsAnHour }
    ensures counts { StartsThatCount }
{}

/// Ten operations: their forecast from 22:00 to 06:00 is these requests and no others, with these beginnings and ends.
pub fn forecast_of_ten()
    ensures { ForecastOfTen }
{}

/// A start is refused while no interval of the workstation contains the minute.
pub fn starts_while_closed()
    ensures { StartsWhileClosed }
{}

/// A pair is refused where a path leads back from its second operation to its first.
pub fn pair_that_leads_back()
    ensures { PairThatLeadsBack }
{}

/// An occurrence isn't deleted while an operation of it is started.
pub fn deletion_while_started()
    ensures { DeletionWhileStarted }
{}

/// A plan isn't loaded over another, whatever the text denotes.
pub fn second_load()
    ensures { SecondLoad }
{}

/// Of three operations for two servers the desk names those that come first: by the highest priority, then by latest start,
/// higher priority, shorter duration and key.
pub fn choices_for_two_servers()
    ensures { ChoicesForTwoServers }
{}

/// An operation that needs more of R1 than is left is passed over, and one after it is named.
pub fn choice_for_fixed_resource()
    ensures { ChoiceForFixedResource }
{}

/// A tick is accepted, names two of three operations and sets the clock.
pub fn tick_that_names()
    ensures { TickThatNames }
{}

/// A latest start may lie before the first moment.
pub fn latest_starts_of_overdue_work()
    ensures { LatestStartsOfOverdueWork }
{}

/// Where a failed operation keeps a special resource alone, nothing but that keeps another operation that shares it from starting.
pub fn kept_resource()
    ensures { KeptResource }
{}

/// The small plan is a draft: it is valid, and nothing is reported of it.
pub fn plan_that_can_be_loaded()
    ensures { IsDraft day }
{}

/// The small plan is loaded, and its first operation is named.
pub fn load_that_names()
    ensures { LoadThatNames }
{}

/// Six records, of a workstation, its interval, an occurrence, two operations and a pair, denote the small plan.
pub fn text_of_the_day()
    ensures { Denotes day_records day }
{}

/// The night's plan is loaded at 21:00, and nothing is named.
pub fn load_of_the_night()
    ensures { LoadOfTheNight }
{}

/// PAYROLL's second operation ends, the third is named, and it holds its special resource alone.
pub fn end_of_the_second()
    ensures { EndOfTheSecond }
{}

/// A rerun clears what its operation reaches, and nothing else.
pub fn reruns()
    ensures third { RerunOfTheThird }
    ensures first { RerunOfTheFirst }
{}

/// An occurrence is added to the small plan behind an operation that is there, and takes time from what is before it.
pub fn addition_behind_the_second()
    ensures { BackupAdded }
{}

/// What is over leaves with its pairs: BACKUP's operation, which was ready, is arriving then.
pub fn what_is_over_leaves()
    ensures { DailyLeaves }
{}

/// A tracker's accepted request leaves a receipt; sent again it is answered the same; a number out of turn is refused.
pub fn numbered_requests()
    ensures accepted { NumberedRequest }
    ensures again { NumberedAgain }
    ensures run { RunToldTwice }
{}

/// A request that is made again at once changes nothing: a tick is accepted and names nothing, and an end is refused.
pub fn requests_made_twice()
    ensures tick { TickTwice }
    ensures end { EndTwice }
{}

/// A report is stopped, the desk is opened again, and the report is made again: it acts once, wherever it was stopped.
pub fn stopped_report()
    ensures schedule { ReportStopped }
    ensures alone { NoOtherIsFound }
    ensures once { ReportActsOnce }
{}
