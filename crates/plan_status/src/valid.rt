// Contents that are valid.
ghost use Rattle.std.specs.Prelude.{◌≡◌, None, Some, IfSome, IsNone};
ghost use Rattle.std.specs.FinMap.{entries, get};
ghost use Rattle.std.specs.FinSet as set;
ghost use Rattle.std.specs.List.Sorted.{IsStrictlySortedBy};
ghost use Rattle.std.specs.Map.{keys_of};
ghost use Rattle.plan_basics.specs.Keys.{name_cmp, operation_cmp};
ghost use Rattle.plan_model.specs.Contents.{pair_cmp};
ghost use Rattle.plan_model.specs.Valid.{IsValid};

use plan_basics::{OpKey, ResName, WsName};
use plan_laws::PlanContents;
use plan_model::{OperationRecord, Stock, Workstation};
use std::marker::Model;

/// What a plan holds of which all that it names is there and in range, no path of pairs returns to its start, and the
/// limits hold. Its marks and flags need not fit together. Contracts see it as what it holds.
#[derive(Drop)]
pub struct ValidContents {
    contents: PlanContents,
}

impl Model for ValidContents {
    ghost use Rattle.plan_model.specs.Contents.{Contents};
    ghost use Rattle.plan_model.specs.Code.{contents_code};

    ghost Value = { Contents };

    ghost coded = { contents_code };

    ghost use Rattle.plan_model.specs.Valid.{IsValid};

    ghost view = { λ c. c.contents };

    ghost invariant = { λ c. IsValid c.contents };
}

impl ValidContents {
    /// These contents, which are valid.
    pub fn of(contents: PlanContents) -> ValidContents
        requires { IsValid contents }
        ensures { result ≡ contents }
    {
        ValidContents { contents }
    }

    /// Its rows, of which others may be made.
    pub fn rows(&self) -> &PlanContents
        ensures contents { result.now ≡ self.now }
        ensures valid { IsValid self.now }
    {
        &self.contents
    }

    /// Its rows, to be changed.
    pub fn into_rows(self) -> PlanContents
        ensures contents { result ≡ self }
        ensures valid { IsValid self }
    {
        self.contents
    }

    /// Its special resources by name, each with whether it is available and how much of it there is.
    pub fn resources(&self) -> &[(ResName, Stock)]
        ensures rows { result.now ≡ entries self.now.resources }
        ensures in_order { IsStrictlySortedBy name_cmp (keys_of result.now) }
        ensures valid { IsValid self.now }
    {
        self.contents.resources()
    }

    /// Its operations by key.
    pub fn operations(&self) -> &[(OpKey, OperationRecord)]
        ensures rows { result.now ≡ entries self.now.operations }
        ensures in_order { IsStrictlySortedBy operation_cmp (keys_of result.now) }
        ensures valid { IsValid self.now }
    {
        self.contents.operations()
    }

    /// Its pairs, by predecessor and then successor.
    pub fn pairs(&self) -> &[(OpKey, OpKey)]
        ensures pairs { set.from_list result.now ≡ self.now.pairs }
        ensures in_order { IsStrictlySortedBy pair_cmp result.now }
        ensures valid { IsValid self.now }
    {
        self.contents.pairs()
    }

    /// The workstation of a name, if there is one.
    pub fn workstation(&self, name: &WsName) -> Option<&Workstation>
        ensures found { IfSome result (λ ws. (ws.now.0 ≡ name.now) × (get self.now.workstations name.now ≡ Some ws.now.1)) }
        ensures absent { IsNone result → get self.now.workstations name.now ≡ None }
        ensures valid { IsValid self.now }
    {
        self.contents.workstation(name)
    }

    /// The workstation of a name, if there is one. No search is made where it is that of the operation at this place.
    pub fn workstation_near(&self, name: &WsName, place: usize) -> Option<&Workstation>
        ensures found { IfSome result (λ ws. (ws.now.0 ≡ name.now) × (get self.now.workstations name.now ≡ Some ws.now.1)) }
        ensures absent { IsNone result → get self.now.workstations name.now ≡ None }
        ensures valid { IsValid self.now }
    {
        self.contents.workstation_near(name, place)
    }
}
