//! The law of repeats: a request that is made again at once, at the same moment, changes nothing.
#![tactic(auto)]

ghost use Rattle.plan_repeats.specs.Repeats.{RepeatedCallsChangeNothing, RepeatsChangeNothing, RepeatsNameNothing};

/// The law that a request which is made again at once, at the same moment, changes nothing, whatever it is answered the
/// first time and the second, and names nothing; and that a call, numbered or not, changes neither the plan nor the
/// receipts then. It does nothing.
pub fn repeats_change_nothing()
    ensures plan { RepeatsChangeNothing }
    ensures named { RepeatsNameNothing }
    ensures calls { RepeatedCallsChangeNothing }
{}
