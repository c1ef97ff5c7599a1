// The texts of columns.
ghost use Rattle.std.specs.Prelude.{◌≡◌};
ghost use Rattle.plan_reasons.specs.Texts.{mode_word};
ghost use Rattle.plan_shows.specs.Columns.{available_text, held_text, mark_word, nop_text, not_before_text, verb_text};

use plan_basics::{Moment, NO_MOMENT};
use report_lines::moment_text;
use request_json::What;
use request_json::verbs::{ENDED, ERROR, INTERRUPTED, STARTED, UNKNOWN};
use special_resources::Mode;
use status_rules::Mark;

/// The text of a not-before, sixteen hyphens where it is minute 0.
pub(crate) fn not_before_text(moment: Moment) -> [u8; 16]
    ensures { result ≡ not_before_text moment }
{
    if moment.minute() == 0 {
        NO_MOMENT
    } else {
        moment_text(moment)
    }
}

/// `H` where an operator holds it, else `-`.
pub fn held_text(held: bool) -> [u8; 1]
    ensures { result ≡ held_text held }
{
    if held { *b"H" } else { *b"-" }
}

/// `N` where it is a no-operation, else `-`.
pub(crate) fn nop_text(nop: bool) -> [u8; 1]
    ensures { result ≡ nop_text nop }
{
    if nop { *b"N" } else { *b"-" }
}

/// `Y` where a special resource is available, else `N`.
pub(crate) fn available_text(available: bool) -> [u8; 1]
    ensures { result ≡ available_text available }
{
    if available { *b"Y" } else { *b"N" }
}

/// By which mark an operation is started.
pub(crate) fn mark_word<'a>(mark: &Mark) -> &'a str
    ensures { result.now ≡ mark_word mark.now }
{
    match mark {
        Mark::Named => "named",
        _ => "started",
    }
}

/// How a special resource is held.
pub(crate) fn mode_word(mode: &Mode) -> &str
    ensures { result.now ≡ mode_word mode.now }
{
    match mode {
        Mode::Shared => "shared",
        Mode::Exclusive => "exclusive",
    }
}

/// The verb of a report.
pub(crate) fn verb_text<'a>(what: &What) -> &'a [u8]
    ensures { result.now ≡ verb_text what.now }
{
    match what {
        What::Started(_) => STARTED.as_bytes(),
        What::Ended(_) => ENDED.as_bytes(),
        What::Error(_, _) => ERROR.as_bytes(),
        What::Interrupted(_) => INTERRUPTED.as_bytes(),
        What::Unknown(_) => UNKNOWN.as_bytes(),
        _ => b"-----------",
    }
}
