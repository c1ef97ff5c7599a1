// What is so of reports, as the contract of a function that does nothing.
ghost use Rattle.std.specs.Prelude.{Option};
ghost use Rattle.plan_basics.specs.Keys.{Name};
ghost use Rattle.plan_basics.specs.declared.keys.OccKey.{OccKey};
ghost use Rattle.plan_model.specs.Plan.{Plan, IsSoundPlan};
ghost use Rattle.plan_reports.specs.Laws.{IsOneText};
ghost use Rattle.plan_reports.specs.Reports.{IsErrorReport, IsLateReport, IsOccurrenceReport, IsReadyReport};
ghost use Rattle.plan_shows.specs.Shows.{IsShow};
ghost use Rattle.plan_shows.specs.Values.{IsStartedText};
ghost use Rattle.plan_shows.specs.declared.shows.Show.{Show as ShowValue};
ghost use Rattle.desk_tables.specs.plan_records.specs.Step.{Receipts};

/// A sound plan has one text at most for each report, for what is started and for the operations of an occurrence.
pub fn one_text()
    ensures ready { (P : Plan) → IsSoundPlan P → (w : Name) → IsOneText (IsReadyReport P w) }
    ensures occurrences { (P : Plan) → IsSoundPlan P → IsOneText (IsOccurrenceReport P) }
    ensures errors { (P : Plan) → IsSoundPlan P → IsOneText (IsErrorReport P) }
    ensures late { (P : Plan) → IsSoundPlan P → IsOneText (IsLateReport P) }
    ensures started { (P : Plan) → IsSoundPlan P → (T : Receipts) → IsOneText (IsShow ShowValue.Started P T) }
    ensures operations { (P : Plan) → IsSoundPlan P → (T : Receipts) → (c : OccKey) → IsOneText (IsShow (ShowValue.Operations c) P T) }
    ensures listed { (P : Plan) → IsSoundPlan P → (w : Option Name) → IsOneText (IsStartedText w P) }
{}
