// Keys that tie with themselves only, and the keys of rows.
ghost use Rattle.std.specs.Prelude.{◌≡◌, IfOk};
ghost use Rattle.std.specs.FinMap.{IsAntisymmetric};
ghost use Rattle.std.specs.Map.{keys_of};
ghost use Rattle.plan_basics.specs.Keys.{name_cmp-IsAntisymmetric, occurrence_cmp-IsAntisymmetric, operation_cmp-IsAntisymmetric, then_IsAntisymmetric};
ghost use Rattle.plan_drafts.specs.RowKeys.{derived_exact};

use super::RowKey;
use plan_basics::{OccKey, OpKey, ResName, WsName};
use std::alloc::{AllocError, Global};

/// A key that ties with itself only.
// `Ord` promises a total order and no more: others may tie by it.
pub trait ExactKey: Ord + Copy {
    ghost exact: { IsAntisymmetric Self.cmp };
}

impl ExactKey for WsName {
    ghost exact = { name_cmp-IsAntisymmetric };
}

impl ExactKey for ResName {
    ghost exact = { name_cmp-IsAntisymmetric };
}

impl ExactKey for OccKey {
    ghost exact = { occurrence_cmp-IsAntisymmetric };
}

impl ExactKey for OpKey {
    ghost exact = { operation_cmp-IsAntisymmetric };
}

impl ExactKey for RowKey {
    ghost exact = { derived_exact };
}

impl<A: ExactKey, B: ExactKey> ExactKey for (A, B) {
    ghost exact = { then_IsAntisymmetric (λ x. x.0) (λ x. x.1) (λ x y p q i. (p i, q i)) A.exact B.exact };
}

/// The rows' keys.
pub fn keys<K: Copy, V>(alloc: Global, rows: &[(K, V)]) -> Result<Vec<K>, AllocError>
    ensures { IfOk result (λ v. v.items ≡ keys_of rows.now) }
{
    rows.iter().map(|row| row.0).collect(alloc)
}
