// Whether valid contents are sound.
ghost use Rattle.std.specs.Prelude.{◌≡◌, ◌↔◌, Decides, IfErr, IfOk, IfSome, IsTrue, MatchOption};
ghost use Rattle.plan_basics.specs.declared.Refusal.{Refusal};
ghost use Rattle.plan_rows.specs.start_choice.specs.Choices.{AreHeldIn};
ghost use Rattle.plan_model.specs.Valid.{IsSound, IsValid};
ghost use Rattle.plan_opening.specs.Laws.{HeldAreWithoutReport, HoldersAreCompatible, MarksAreAllowed, NoMoreIsHeld, OccurrencesAreDeletedWhole, ReportsAreInOrder};
ghost use Rattle.plan_rows.specs.plan_status.specs.Standings.{AreStandings};

use super::flags::held_are_without_report;
use super::holders::{holders_are_compatible, no_more_is_held};
use super::marks::marks_are_allowed;
use super::occurrences::occurrences_are_deleted_whole;
use super::order::reports_are_in_order;
use plan_basics::Refusal;
use plan_rows::{
    SoundContents, Standing, ValidContents, graph_for, holdings_in, standings_of, summaries_of,
};
use special_resources::Holdings;
use std::alloc::Global;

// Whether marks, flags and deletions are those of a sound plan.
fn rows_are_sound(contents: &ValidContents) -> bool
    ensures sound { IsTrue result ↔ (MarksAreAllowed contents.now × HeldAreWithoutReport contents.now × OccurrencesAreDeletedWhole contents.now) }
    ensures valid { IsValid contents.now }
{
    marks_are_allowed(contents)
        && held_are_without_report(contents)
        && occurrences_are_deleted_whole(contents)
}

// Whether what is held of special resources is as in a sound plan.
fn holders_are_sound(contents: &ValidContents, holdings: &Holdings) -> bool
    requires { AreHeldIn contents.now holdings.now.held }
    ensures { IsTrue result ↔ (HoldersAreCompatible contents.now × NoMoreIsHeld contents.now) }
{
    holders_are_compatible(contents, holdings) && no_more_is_held(contents, holdings)
}

// Whether what operations wait for and what they hold are as in a sound plan.
fn reports_and_holders_are_sound(
    contents: &ValidContents,
    standings: &[Standing],
    holdings: &Holdings,
) -> bool
    requires standings { AreStandings contents.now standings.now }
    requires held { AreHeldIn contents.now holdings.now.held }
    ensures { IsTrue result ↔ (ReportsAreInOrder contents.now × HoldersAreCompatible contents.now × NoMoreIsHeld contents.now) }
{
    reports_are_in_order(contents, standings) && holders_are_sound(contents, holdings)
}

// Whether these contents are sound. The error is always `Memory`.
fn is_sound(alloc: Global, contents: &ValidContents) -> Result<bool, Refusal>
    ensures sound { IfOk result (λ found. Decides found (IsSound contents.now)) }
    ensures refused { IfErr result (λ r. r ≡ Refusal.Memory) }
{
    if !rows_are_sound(contents) {
        return Ok(false);
    }
    let graph = graph_for(alloc, contents)?;
    let summaries = summaries_of(alloc, contents)?;
    let standings = standings_of(alloc, &summaries, &graph)?;
    let holdings = holdings_in(alloc, contents)?;
    Ok(reports_and_holders_are_sound(contents, &standings, &holdings))
}

/// These contents, if they are sound; `None` where they aren't. The error is always `Memory`.
pub fn judged(alloc: Global, contents: ValidContents) -> Result<Option<SoundContents>, Refusal>
    ensures judged { IfOk result (λ found. MatchOption found (¬ IsSound contents) (λ s. s ≡ contents)) }
    ensures sound { IfOk result (λ found. IfSome found IsSound) }
    ensures refused { IfErr result (λ r. r ≡ Refusal.Memory) }
{
    if is_sound(alloc, &contents)? {
        Ok(Some(SoundContents::of_valid(contents)))
    } else {
        Ok(None)
    }
}
