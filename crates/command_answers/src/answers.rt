// How answers are shown, line by line.
ghost use Rattle.std.specs.Prelude.{IfOk, IfErr, OnOk, flat_map};
ghost use Rattle.std.specs.Io.KnownBytes.{Appends};
ghost use Rattle.plan_basics.specs.Watched.{inner_of};
ghost use Rattle.command_answers.specs.Answers.{IsShown, refusal_line, start_line};
ghost use Rattle.command_answers.specs.Opened.{IsFaultOfNone, IsNoneShown};
ghost use Rattle.command_answers.specs.Statuses.{IsOfSurroundings};
ghost use Rattle.plan_records.specs.Answer.{answer_of};

use crate::endings::{Ending, Fault, NoDesk};
use plan_basics::{OpKey, Refusal, Watched};
use plan_records::Reply;
use std::io::Write;

// Shows the operations that are named to start, a line for each.
#[tactic(auto, using(crate::proofs::Statuses::of_the_surroundings))]
fn tell_starts<W: Write>(out: &mut Watched<W>, named: &[OpKey]) -> Result<(), Fault>
    ensures shown { OnOk result (Appends (W.contents (inner_of out.old)) (W.contents (inner_of out.new)) (flat_map start_line named.now)) }
    ensures fault { IfErr result IsOfSurroundings }
{
    for key in named {
        writeln!(out, "starts {key}")?;
    }
    Ok(())
}

/// Shows a refusal: its number and its name.
#[tactic(auto, using(crate::proofs::Statuses::of_the_surroundings))]
pub fn tell_refusal<W: Write>(out: &mut Watched<W>, refusal: Refusal) -> Result<(), Fault>
    ensures shown { OnOk result (Appends (W.contents (inner_of out.old)) (W.contents (inner_of out.new)) (refusal_line refusal)) }
    ensures fault { IfErr result IsOfSurroundings }
{
    Ok(writeln!(out, "refused {refusal}")?)
}

/// Shows an answer: that it is accepted and a line for each operation that it names, or the refusal.
#[tactic(auto, using(crate::proofs::Statuses::of_the_surroundings))]
pub fn tell<W: Write>(out: &mut Watched<W>, reply: &Reply) -> Result<Ending, Fault>
    ensures shown { IfOk result (IsShown (answer_of reply.now) (W.contents (inner_of out.old)) (W.contents (inner_of out.new))) }
    ensures fault { IfErr result IsOfSurroundings }
{
    match reply {
        Reply::Accepted { named } => {
            writeln!(out, "accepted")?;
            tell_starts(out, named)?;
            Ok(Ending::Done)
        }
        Reply::Refused(refusal) => {
            tell_refusal(out, *refusal)?;
            Ok(Ending::Refused)
        }
    }
}

/// Shows why there is no desk, where that is a refusal; hands on the fault otherwise.
pub fn tell_no_desk<W: Write>(out: &mut Watched<W>, none: NoDesk) -> Result<Ending, Fault>
    ensures shown { IfOk result (IsNoneShown none (W.contents (inner_of out.old)) (W.contents (inner_of out.new))) }
    ensures fault { IfErr result (IsFaultOfNone none) }
{
    match none {
        NoDesk::Refused(refusal) => tell(out, &Reply::Refused(refusal)),
        NoDesk::Faulty(fault) => Err(fault),
    }
}
