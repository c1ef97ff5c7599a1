//! The night ahead: a run of a plan's own accepted requests, each made at the first moment at which something is due or may
//! begin. This crate has its definition, and what holds of every such run.
#![tactic(auto)]

ghost use Rattle.plan_forecast.specs.Laws.{ForecastGoesToEnd, ForecastIsProvided, ForecastIsRun, ForecastIsShort, NoneEndsEarly, OneForecast, SomeForecast, WorkBeginsAtTurns};
ghost use Rattle.plan_forecast.specs.Starts.{ReportedStartIsKnown, StartsStayKnown};

/// From a plan, what is known of starts, and the last moment that is looked at, there is one forecast at most.
pub fn one_forecast()
    ensures { OneForecast }
{}

/// A forecast is a run of the plan's own requests, all accepted; and for whatever becomes started in it there was all
/// that it needs, at that moment.
pub fn forecast_is_run()
    ensures run { ForecastIsRun }
    ensures provided { ForecastIsProvided }
{}

/// A forecast has at most one request more than twice the operations of its plan: each but the first ends or begins one.
pub fn forecast_is_short()
    ensures { ForecastIsShort }
{}

/// Where something is due or may begin, it was so already at the clock, at the first minute of an interval, at a
/// not-before, or where the duration of something that is going is over.
pub fn work_begins_at_turns()
    ensures { WorkBeginsAtTurns }
{}

/// A sound plan that is loaded has a forecast from each moment on that isn't before its clock, up to each moment.
pub fn some_forecast()
    ensures { SomeForecast }
{}

/// After the last request of a forecast nothing may begin up to its last moment, and what is going has its end after that.
pub fn forecast_goes_to_end()
    ensures { ForecastGoesToEnd }
{}

/// Where starts are noted at each request, those that are known are of what is going, and not after the clock.
pub fn known_starts_stay_so()
    ensures { StartsStayKnown }
{}

/// Where something begins to run by a request, its start is the moment of that request, and not the one at which it was named.
pub fn reported_start_is_known()
    ensures { ReportedStartIsKnown }
{}

/// What runs ends in no forecast before its reported start and its duration; what is only named, or runs since nobody knows
/// when, not before the forecast's moment and its duration.
pub fn none_ends_early()
    ensures { NoneEndsEarly }
{}
