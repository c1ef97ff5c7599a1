// The lines of the text, piece by piece.
ghost use Rattle.std.specs.Prelude.{◌≡◌, ◌++◌, ◌∷◌, [], IfOk, OnOk, map, codes, decimal, string_bytes};
ghost use Rattle.plan_reasons.specs.Texts.{beginning_word, first_line, holder_line, line, mode_word, reason_line, root_line, supply_word};
ghost use Rattle.plan_basics.specs.KeyTexts.{operation_text};
ghost use Rattle.plan_basics.specs.MomentTexts.{moment_text};
ghost use Rattle.plan_reasons.specs.declared.reasons.Reason.{Reason as Told};

use crate::{
    Beginning, Closing, Obstacle, OtherHolder, Reason, Rest, Scarcity, Shortage, Supply,
    Unsatisfied,
};
use plan_basics::{Moment, OpKey};
use special_resources::Mode;
use status_rules::Status;
use std::alloc::{AllocError, Global};

// The text of a moment.
fn moment_text(moment: Moment) -> [u8; 16]
    ensures { result ≡ moment_text moment }
{
    moment.to_text()
}

// How a holder holds a resource.
fn mode_word<'a>(mode: Mode) -> &'a [u8]
    ensures { result.now ≡ mode_word mode }
{
    match mode {
        Mode::Shared => b"shared",
        Mode::Exclusive => b"exclusive",
    }
}

// By what an operation is started: the plan named it, or its start was reported.
fn beginning_word<'a>(beginning: Beginning) -> &'a [u8]
    ensures { result.now ≡ beginning_word beginning }
{
    match beginning {
        Beginning::Named => b" named",
        Beginning::Reported => b" started",
        Beginning::NotStarted => b"",
    }
}

// What lacks.
fn supply_word<'a>(supply: Supply) -> &'a [u8]
    ensures { result.now ≡ supply_word supply }
{
    match supply {
        Supply::Servers => b"servers",
        Supply::R1 => b"R1",
        Supply::R2 => b"R2",
    }
}

// Puts a line of these pieces behind a text. It fails for want of memory only.
fn put_line(text: &mut Vec<u8>, pieces: &[&[u8]]) -> Result<(), AllocError>
    ensures { OnOk result (text.new.items ≡ text.old.items ++ line (map (λ p. p.now) pieces.now)) }
{
    for piece in pieces {
        text.extend_from_slice(piece)?;
    }
    text.push(b'\n')?;
    Ok(())
}

/// Puts the first line behind a text. It fails for want of memory only.
pub(crate) fn put_first(
    text: &mut Vec<u8>,
    key: &OpKey,
    status: Status,
    at: Moment,
) -> Result<(), AllocError>
    ensures { OnOk result (text.new.items ≡ text.old.items ++ first_line key.now status at) }
{
    put_line(
        text,
        &[
            key.to_text().as_bytes(),
            b" ",
            &[status.letter()],
            b" ",
            &moment_text(at),
        ],
    )
}

/// Puts the line of a root behind a text. It fails for want of memory only.
pub(crate) fn put_root(text: &mut Vec<u8>, root: &Unsatisfied) -> Result<(), AllocError>
    ensures { OnOk result (text.new.items ≡ text.old.items ++ root_line root.now) }
{
    put_line(
        text,
        &[
            b"root ",
            root.op.to_text().as_bytes(),
            b" ",
            &[root.status.letter()],
        ],
    )
}

// Puts the line of a status from which nothing starts behind a text.
fn put_rest(text: &mut Vec<u8>, rest: &Rest) -> Result<(), AllocError>
    ensures { OnOk result (text.new.items ≡ text.old.items ++ reason_line (Told.AtRest rest.now)) }
{
    put_line(
        text,
        &[
            b"status ",
            &[rest.status.letter()],
            beginning_word(rest.beginning),
        ],
    )
}

// Puts the line of a workstation that is closed for a time behind a text.
fn put_closed(text: &mut Vec<u8>, closing: &Closing) -> Result<(), AllocError>
    ensures { OnOk result (text.new.items ≡ text.old.items ++ reason_line (Told.ClosedUntil closing.now)) }
{
    put_line(
        text,
        &[
            closing.workstation.as_bytes(),
            b" closed until ",
            &moment_text(closing.until),
        ],
    )
}

// The digits of a number.
fn number_text(alloc: Global, number: u32) -> Result<String, AllocError>
    ensures { IfOk result (λ text. string_bytes text ≡ decimal number) }
{
    format!(in alloc; "{number}")
}

// Puts the line of what lacks on a workstation behind a text.
fn put_shortage(text: &mut Vec<u8>, shortage: &Shortage) -> Result<(), AllocError>
    ensures { OnOk result (text.new.items ≡ text.old.items ++ reason_line (Told.Lacks shortage.now)) }
{
    let alloc = *text.allocator();
    let given = number_text(alloc, shortage.given)?;
    let offered = number_text(alloc, shortage.offered)?;
    let needed = number_text(alloc, shortage.needed)?;
    put_line(
        text,
        &[
            shortage.workstation.as_bytes(),
            b" lacks ",
            supply_word(shortage.supply),
            b": given out ",
            given.as_bytes(),
            b", open ",
            offered.as_bytes(),
            b", needed ",
            needed.as_bytes(),
        ],
    )
}

// Puts the line of a holder behind a text.
fn put_obstacle(text: &mut Vec<u8>, obstacle: &Obstacle) -> Result<(), AllocError>
    ensures { OnOk result (text.new.items ≡ text.old.items ++ reason_line (Told.HeldBy obstacle.now)) }
{
    put_line(
        text,
        &[
            obstacle.resource.as_bytes(),
            b" held by ",
            obstacle.holder.to_text().as_bytes(),
            b" ",
            mode_word(obstacle.mode),
        ],
    )
}

// Puts the line of a special resource of which others leave too little behind a text.
fn put_scarcity(text: &mut Vec<u8>, scarcity: &Scarcity) -> Result<(), AllocError>
    ensures { OnOk result (text.new.items ≡ text.old.items ++ reason_line (Told.TooLittleLeft scarcity.now)) }
{
    let alloc = *text.allocator();
    let left = number_text(alloc, scarcity.left)?;
    let wanted = number_text(alloc, scarcity.needed)?;
    put_line(
        text,
        &[
            scarcity.resource.as_bytes(),
            b" lacks: left ",
            left.as_bytes(),
            b", needed ",
            wanted.as_bytes(),
        ],
    )
}

// Puts the line of what an operation waits for behind a text.
fn put_awaited(text: &mut Vec<u8>, awaited: &Unsatisfied) -> Result<(), AllocError>
    ensures { OnOk result (text.new.items ≡ text.old.items ++ reason_line (Told.WaitsFor awaited.now)) }
{
    put_line(
        text,
        &[
            b"waits for ",
            awaited.op.to_text().as_bytes(),
            b" ",
            &[awaited.status.letter()],
        ],
    )
}

/// Puts the line of a reason behind a text. It fails for want of memory only.
pub fn put_reason(text: &mut Vec<u8>, reason: &Reason) -> Result<(), AllocError>
    ensures { OnOk result (text.new.items ≡ text.old.items ++ reason_line reason.now) }
{
    match reason {
        Reason::AtRest(rest) => put_rest(text, rest),
        Reason::WaitsFor(awaited) => put_awaited(text, awaited),
        Reason::Held => put_line(text, &[b"held"]),
        Reason::TooEarly(moment) => put_line(text, &[b"not before ", &moment_text(*moment)]),
        Reason::Closed(workstation) => put_line(text, &[workstation.as_bytes(), b" closed"]),
        Reason::ClosedUntil(closing) => put_closed(text, closing),
        Reason::Lacks(shortage) => put_shortage(text, shortage),
        Reason::Unavailable(resource) => put_line(text, &[resource.as_bytes(), b" not available"]),
        Reason::HeldBy(obstacle) => put_obstacle(text, obstacle),
        Reason::TooLittleLeft(scarcity) => put_scarcity(text, scarcity),
    }
}

/// Puts the line of another that holds what lacks behind a text. It fails for want of memory only.
pub(crate) fn put_holder(text: &mut Vec<u8>, other: &OtherHolder) -> Result<(), AllocError>
    ensures { OnOk result (text.new.items ≡ text.old.items ++ holder_line other.now) }
{
    let amount = number_text(*text.allocator(), other.holder.claim.amount)?;
    put_line(
        text,
        &[
            b"  ",
            other.holder.operation.to_text().as_bytes(),
            b" ",
            &[other.status.letter()],
            b" ",
            mode_word(other.holder.claim.mode),
            b" ",
            amount.as_bytes(),
        ],
    )
}

/// Puts the last line of a text of so many lines behind it. It fails for want of memory only.
pub(crate) fn put_end(text: &mut Vec<u8>, lines: usize) -> Result<(), AllocError>
    ensures { OnOk result (text.new.items ≡ text.old.items ++ line (codes "END " ∷ decimal lines ∷ [])) }
{
    let digits = format!(in *text.allocator(); "{lines}")?;
    put_line(text, &[b"END ", digits.as_bytes()])
}
