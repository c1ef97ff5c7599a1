// The text of a reply: the keys of the operations that it names.
ghost use Rattle.std.specs.Prelude.{◌≡◌, List, [], ◌∷◌, ◌++◌, IfOk, OnOk, MatchOption};
ghost use Rattle.std.specs.String.{string_bytes};
ghost use Rattle.plan_basics.specs.declared.keys.OpKey.{OpKey as OperationKey};
ghost use Rattle.tracker_receipts.specs.Replies.{joined, Joins};

use plan_basics::OpKey;
use std::alloc::{AllocError, Global};

// Puts a key's text behind those of others, after a blank where there are others.
fn push_key(alloc: Global, text: &mut String, key: &OpKey) -> Result<(), AllocError>
    ensures { OnOk result ((keys : List OperationKey) → string_bytes text.old ≡ joined keys → string_bytes text.new ≡ joined (keys ++ key.now ∷ [])) }
{
    let shown = key.to_string(alloc)?;
    if text.is_empty() {
        text.push_str(&shown)
    } else {
        text.push_str(" ")?;
        text.push_str(&shown)
    }
}

/// The keys' texts in their order, with one blank between each two; nothing where there is none.
pub fn reply_text(alloc: Global, named: &[OpKey]) -> Result<String, AllocError>
    ensures { IfOk result (λ text. string_bytes text ≡ joined named.now) }
{
    let mut text = String::new(alloc);
    for key in named {
        push_key(alloc, &mut text, key)?;
    }
    Ok(text)
}

/// The keys whose texts these are, with one blank between each two; `None` where the text is none such.
pub fn keys_of_text(alloc: Global, text: &[u8]) -> Result<Option<Vec<OpKey>>, AllocError>
    ensures { IfOk result (λ found. MatchOption found ((keys : List OperationKey) → ¬ Joins text.now keys) (λ keys. Joins text.now keys.items)) }
{
    let mut keys = Vec::new(alloc);
    if text.is_empty() {
        return Ok(Some(keys));
    }
    for part in text.split(|byte| *byte == b' ') {
        let Some(key) = OpKey::from_text(part) else {
            return Ok(None);
        };
        keys.push(key)?;
    }
    Ok(Some(keys))
}
