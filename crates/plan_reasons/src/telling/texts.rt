// The whole text.
ghost use Rattle.std.specs.Prelude.{◌≡◌, ◌++◌, IfOk, OnOk, flat_map};
ghost use Rattle.std.specs.Ordering.{eq_by_cmp};
ghost use Rattle.plan_basics.specs.Keys.{name_cmp};
ghost use Rattle.plan_reasons.specs.Texts.{holder_lines, line_if_of, reason_lines, root_line, why_text};

use super::lines::{put_end, put_first, put_holder, put_reason, put_root};
use crate::other_holders::lacking_by;
use crate::{OtherHolder, Reason, Unsatisfied, Why};
use plan_basics::{Moment, OpKey, ResName};
use std::alloc::{AllocError, Global};

// Whether this special resource is what another holds.
fn is_of(resource: &ResName, other: &OtherHolder) -> bool
    ensures { result ≡ eq_by_cmp name_cmp other.now.holder.resource resource.now }
{
    other.holder.resource.cmp(resource).is_eq()
}

// Puts the line of a holder behind a text, if this is what it holds.
fn put_if_of(text: &mut Vec<u8>, resource: &ResName, other: &OtherHolder) -> Result<(), AllocError>
    ensures { OnOk result (text.new.items ≡ text.old.items ++ line_if_of resource.now other.now) }
{
    if is_of(resource, other) {
        put_holder(text, other)
    } else {
        Ok(())
    }
}

// Puts the lines of those of these holders that hold this special resource behind a text.
fn put_holders_of(
    text: &mut Vec<u8>,
    resource: &ResName,
    holders: &[OtherHolder],
) -> Result<(), AllocError>
    ensures { OnOk result (text.new.items ≡ text.old.items ++ flat_map (line_if_of resource.now) holders.now) }
{
    for other in holders {
        put_if_of(text, resource, other)?;
    }
    Ok(())
}

// Puts the lines of those of these holders that hold what lacks behind a text, if anything does.
fn put_holders(
    text: &mut Vec<u8>,
    lacking: Option<ResName>,
    holders: &[OtherHolder],
) -> Result<(), AllocError>
    ensures { OnOk result (text.new.items ≡ text.old.items ++ holder_lines holders.now lacking) }
{
    match lacking {
        Some(resource) => put_holders_of(text, &resource, holders)?,
        None => {}
    }
    Ok(())
}

// Puts the line of a reason behind a text, and those of the holders of what lacks by it.
fn put_told(text: &mut Vec<u8>, reason: &Reason, holders: &[OtherHolder]) -> Result<(), AllocError>
    ensures { OnOk result (text.new.items ≡ text.old.items ++ reason_lines holders.now reason.now) }
{
    put_reason(text, reason)?;
    put_holders(text, lacking_by(reason), holders)?;
    Ok(())
}

// Puts the lines of these reasons behind a text, and those of the holders of what lacks by them.
fn put_reasons(
    text: &mut Vec<u8>,
    reasons: &[Reason],
    holders: &[OtherHolder],
) -> Result<(), AllocError>
    ensures { OnOk result (text.new.items ≡ text.old.items ++ flat_map (reason_lines holders.now) reasons.now) }
{
    for reason in reasons {
        put_told(text, reason, holders)?;
    }
    Ok(())
}

// Puts the lines of these roots behind a text.
fn put_roots(text: &mut Vec<u8>, roots: &[Unsatisfied]) -> Result<(), AllocError>
    ensures { OnOk result (text.new.items ≡ text.old.items ++ flat_map root_line roots.now) }
{
    for root in roots {
        put_root(text, root)?;
    }
    Ok(())
}

/// Why an operation doesn't go on at a moment, as a text: the operation, its status and the moment; a line for each
/// reason, with one under it for each other that holds what lacks, and for each root; and how many reasons and roots these
/// are. It fails for want of memory only.
pub fn why_text(alloc: Global, key: &OpKey, at: Moment, why: &Why) -> Result<Vec<u8>, AllocError>
    ensures { IfOk result (λ text. text.items ≡ why_text key.now at why.now) }
{
    let mut text = Vec::new(alloc);
    put_first(&mut text, key, why.status, at)?;
    put_reasons(&mut text, &why.reasons, &why.holders)?;
    put_roots(&mut text, &why.roots)?;
    put_end(&mut text, why.reasons.len() + why.roots.len())?;
    Ok(text)
}
