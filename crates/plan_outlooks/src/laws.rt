// What holds of all that forecasts tell, as the contract of a function that does nothing.
ghost use Rattle.plan_outlooks.specs.Laws.{EachHasReason};

/// Where no last moment was asked for, whatever never begins has a reason: none of it only begins later.
pub fn each_has_reason()
    ensures { EachHasReason }
{}
