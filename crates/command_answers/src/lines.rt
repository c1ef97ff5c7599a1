// Texts that are taken line by line, and the number of a line that is none of its text's.
ghost use Rattle.std.specs.Prelude.{◌≡◌, IfErr, IfSome, IfNone, OnOk, []};
ghost use Rattle.std.specs.Io.KnownBytes.{Appends};
ghost use Rattle.plan_basics.specs.Watched.{inner_of};
ghost use Rattle.command_answers.specs.Lines.{IsFirstLine, number_line};
ghost use Rattle.command_answers.specs.Statuses.{IsOfSurroundings};

use crate::endings::Fault;
use plan_basics::Watched;
use std::io::Write;

/// The first line of a text that isn't empty, without its end, and what comes after it.
pub fn first_line(text: &[u8]) -> Option<(&[u8], &[u8])>
    ensures first { IfSome result (λ cut. IsFirstLine text.now cut.0.now cut.1.now) }
    ensures empty { IfNone result (text.now ≡ []) }
{
    if text.is_empty() {
        return None;
    }
    match text.iter().position(|byte| *byte == b'\n') {
        Some(end) => Some((&text[..end], &text[end + 1..])),
        None => Some((text, &text[text.len()..])),
    }
}

/// Shows the number of a line that ends the run.
#[tactic(auto, using(crate::proofs::Statuses::of_the_surroundings))]
pub fn tell_number<W: Write>(out: &mut Watched<W>, number: usize) -> Result<(), Fault>
    ensures shown { OnOk result (Appends (W.contents (inner_of out.old)) (W.contents (inner_of out.new)) (number_line number)) }
    ensures fault { IfErr result IsOfSurroundings }
{
    writeln!(out, "{number}")?;
    out.flush()?;
    Ok(())
}
