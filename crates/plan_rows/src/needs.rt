// The tables of the needs of operations, and of their amounts.
ghost use Rattle.std.specs.Prelude.{◌≡◌, ◌⊎◌, ◌+◌, ◌<◌, ◌≤◌, ◌++◌, Contains, Some, IfOk, OnOk, length, map, slice_get};
ghost use Rattle.std.specs.FinMap.{entries};
ghost use Rattle.plan_basics.specs.declared.keys.OpKey.{OpKey as OpKeyValue};
ghost use Rattle.plan_model.specs.Contents.{Operation};
ghost use Rattle.plan_model.specs.Plan.{Plan};
ghost use Rattle.plan_rows.specs.Kept.{AreNewNeeds, KeepsRecords};
ghost use Rattle.plan_rows.specs.Rows.{amount_row, need_row, needs_listed};
ghost use Rattle.plan_rows.specs.Sources.{IsSourceIfAny, contents_if_any, source_if_any};
ghost use Rattle.plan_rows.specs.Tables.{AreChangesBelow};

use super::new_places::new_places;
use super::row_sources::TableSource;
use super::written::push_written;
use derived_figures::CountedRecords;
use plan_basics::OpKey;
use plan_model::OperationRecord;
use plan_records::{Changes, PlanRow};
use special_resources::{Mode, Need};
use std::alloc::{AllocError, Global};

// The needs of an operation.
fn needs_of(operation: &OperationRecord) -> &[Need]
    ensures { (o : OpKeyValue) → map (λ n. (o, n)) result.now ≡ needs_listed (o, operation.now) }
{
    operation.needs.as_slice()
}

// Adds what is made of each of these, in order. At an error a part of it may be added.
fn push_each<X: Copy, Row: Drop, F: Fn(X) -> Row>(
    rows: &mut Vec<Row>,
    items: &[X],
    make: F,
) -> Result<(), AllocError>
    requires { (x : X) → Contains items.now x → F.pre make x }
    ensures { (f : X → Row) → ((x : X) (r : Row) → Contains items.now x → F.post make x r → r ≡ f x) → OnOk result (rows.new.items ≡ rows.old.items ++ map f items.now) }
{
    for item in items {
        rows.push(make(*item))?;
    }
    Ok(())
}

// Adds these needs of an operation.
fn push_needs_of(op: OpKey, needs: &[Need], all: &mut Vec<(OpKey, Need)>) -> Result<(), AllocError>
    ensures { OnOk result (all.new.items ≡ all.old.items ++ map (λ n. (op, n)) needs.now) }
{
    push_each(
        all,
        needs,
        |need|
            ensures { result ≡ (op, need) }
        { (op, need) },
    )
}

// Adds the needs of the operation at a place: a look.
fn push_needs_at(
    records: &mut CountedRecords,
    place: usize,
    all: &mut Vec<(OpKey, Need)>,
) -> Result<(), AllocError>
    requires { place < length (entries records.old.contents.operations) }
    ensures needs { (o : OpKeyValue) (op : Operation) → slice_get (entries records.old.contents.operations) place ≡ Some (o, op) → OnOk result (all.new.items ≡ all.old.items ++ needs_listed (o, op)) }
    ensures contents { records.new.contents ≡ records.old.contents }
    ensures fewest { records.old.looks ≤ records.new.looks }
    ensures most { records.new.looks ≤ records.old.looks + 1 }
{
    let seen = records.see(place);
    push_needs_of(*seen.key, needs_of(seen.operation), all)
}

/// The needs of the operations that the plan before hasn't, where these records keep those that it has: a look at each that
/// there wasn't. They are by operation and then resource.
pub fn new_needs(
    alloc: Global,
    before: Option<TableSource<'_>>,
    records: &mut CountedRecords,
) -> Result<Vec<(OpKey, Need)>, AllocError>
    requires before { IsSourceIfAny (source_if_any before) }
    requires kept { KeepsRecords (contents_if_any (source_if_any before)) records.old.contents }
    ensures needs { IfOk result (λ v. AreNewNeeds (contents_if_any (source_if_any before.entry)) records.old.contents v.items) }
    ensures contents { records.new.contents ≡ records.old.contents }
    ensures fewest { records.old.looks ≤ records.new.looks }
    ensures most { records.new.looks + length (entries (contents_if_any (source_if_any before.entry)).operations) ≤ records.old.looks + length (entries records.old.contents.operations) }
{
    let places = new_places(alloc, before, &records.uncounted())?;
    let mut needs = Vec::new(alloc);
    for place in &places {
        push_needs_at(records, *place, &mut needs)?;
    }
    Ok(needs)
}

// The row of a need.
fn row_of_need(said: &(OpKey, Need)) -> PlanRow
    ensures { result ≡ need_row said.now }
{
    PlanRow::Need {
        op: said.0,
        resource: said.1.name,
        mode: said.1.mode,
        keep: said.1.keep,
    }
}

/// Adds what changes in the table of needs, by those of the operations that there weren't, since the needs of others stay.
pub fn push_needs(needs: &[(OpKey, Need)], changes: &mut Changes) -> Result<(), AllocError>
    ensures { (P Q : Plan) → KeepsRecords P.contents Q.contents → AreNewNeeds P.contents Q.contents needs.now → AreChangesBelow 7 P Q changes.old → OnOk result (AreChangesBelow 8 P Q changes.new) }
{
    push_each(
        &mut changes.rows,
        needs,
        |said|
            ensures { result ≡ need_row said }
        { row_of_need(&said) },
    )
}

// The row of the amount of a need, where one is written: of a shared need of another amount than 1.
fn row_of_amount(said: &(OpKey, Need)) -> Option<PlanRow>
    ensures { result ≡ amount_row said.now }
{
    match said.1.mode {
        Mode::Exclusive => None,
        Mode::Shared => {
            if said.1.amount == 1 {
                None
            } else {
                Some(PlanRow::Amount {
                    op: said.0,
                    resource: said.1.name,
                    amount: said.1.amount,
                })
            }
        }
    }
}

/// Adds what changes in the table of amounts, by the needs of the operations that there weren't, since the needs of others stay.
pub fn push_amounts(needs: &[(OpKey, Need)], changes: &mut Changes) -> Result<(), AllocError>
    ensures { (P Q : Plan) → KeepsRecords P.contents Q.contents → AreNewNeeds P.contents Q.contents needs.now → AreChangesBelow 9 P Q changes.old → OnOk result (AreChangesBelow 10 P Q changes.new) }
{
    push_written(
        &mut changes.rows,
        needs,
        |said|
            ensures { result ≡ amount_row said }
        { row_of_amount(&said) },
    )
}
