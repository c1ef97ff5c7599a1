// What stands beside the records of a plan, if one is loaded.
ghost use Rattle.std.specs.Prelude.{◌≡◌};
ghost use Rattle.std.specs.FinMap.{entries};
ghost use Rattle.std.specs.FinSet as set;
ghost use Rattle.std.specs.List.Sorted.{IsStrictlySortedBy};
ghost use Rattle.std.specs.Map.{keys_of};
ghost use Rattle.plan_basics.specs.Keys.{name_cmp};
ghost use Rattle.plan_model.specs.Contents.{pair_cmp};
ghost use Rattle.plan_rows.specs.Sources.{contents_if_any, source_if_any};

use super::row_sources::TableSource;
use plan_basics::{OpKey, ResName};
use plan_model::Stock;
use workstations::Workstation;

/// The workstations by name.
pub fn workstations_of<'a>(source: Option<TableSource<'a>>) -> &'a [Workstation]
    ensures rows { result.now ≡ entries (contents_if_any (source_if_any source.entry)).workstations }
    ensures in_order { IsStrictlySortedBy name_cmp (keys_of result.now) }
{
    match source {
        Some(source) => source.uncounted.workstations(),
        None => &[],
    }
}

/// The special resources by name, each with whether it is available and how much of it there is.
pub fn resources_of<'a>(source: Option<TableSource<'a>>) -> &'a [(ResName, Stock)]
    ensures rows { result.now ≡ entries (contents_if_any (source_if_any source.entry)).resources }
    ensures in_order { IsStrictlySortedBy name_cmp (keys_of result.now) }
{
    match source {
        Some(source) => source.uncounted.resources(),
        None => &[],
    }
}

/// The pairs, by predecessor and then successor.
pub fn pairs_of<'a>(source: Option<TableSource<'a>>) -> &'a [(OpKey, OpKey)]
    ensures pairs { set.from_list result.now ≡ (contents_if_any (source_if_any source.entry)).pairs }
    ensures in_order { IsStrictlySortedBy pair_cmp result.now }
{
    match source {
        Some(source) => source.uncounted.pairs(),
        None => &[],
    }
}
