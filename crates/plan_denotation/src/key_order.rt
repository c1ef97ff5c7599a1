// What is said, in order of its keys.
ghost use Rattle.std.specs.Prelude.{◌≡◌, ◌≢◌, IfOk, MatchOption};
ghost use Rattle.std.specs.Fn.{FnReturnsAt};
ghost use Rattle.std.specs.List.{AllPairs};
ghost use Rattle.std.specs.Ordering.{is_lt};
ghost use Rattle.plan_drafts.specs.KeyOrder.{AreInKeyOrder};

use plan_drafts::ExactKey;
use std::alloc::AllocError;

/// What is said in order of its keys, where no two have one key; `None` where two have one.
pub fn in_key_order<T: Drop, K: ExactKey, F: Fn(&T) -> K + Drop>(
    mut said: Vec<T>,
    key: F,
) -> Result<Option<Vec<T>>, AllocError>
    requires { F.IsAlwaysCallable key }
    ensures { (k : T → K) → ((x : T) (r : K) → FnReturnsAt F.Fn key x r → r ≡ k x) → IfOk result (λ found. MatchOption found (¬ AllPairs (λ a b. k a ≢ k b) said.items) (λ v. AreInKeyOrder K.cmp k said.items v.items)) }
{
    said.sort_by_key(&key)?;
    let ascend = said.is_sorted_by(
        |a, b|
            requires { F.IsAlwaysCallable key }
            ensures { (x y : K) × FnReturnsAt F.Fn key a.now x × FnReturnsAt F.Fn key b.now y × (result ≡ is_lt (K.cmp x y)) }
        { key(a).cmp(&key(b)).is_lt() },
    );
    if !ascend {
        return Ok(None);
    }
    Ok(Some(said))
}
