// What is known of a list of records before faults are sought.
ghost use Rattle.std.specs.Prelude.{List, IfOk};
ghost use Rattle.plan_items.specs.Items.{Fields};
ghost use Rattle.record_faults.specs.Sayings.{AreSayings};
ghost use Rattle.record_faults.specs.Readings.{IsReadingOf};

use super::counts::{Counts, counts_of, earlier_of};
use super::groups::{Group, groups_said};
use super::index::{Index, index_of};
use super::sayings::{keys_given, owners_given};
use plan_drafts::RowKey;
use plan_items::Item;
use std::alloc::{AllocError, Global};

/// What records say, place by place, and where each key is given first.
#[derive(Drop)]
pub struct Reading {
    /// What each record says.
    pub said: Vec<Option<Item>>,
    /// The key of what it says.
    pub keys: Vec<Option<RowKey>>,
    /// For each key the first place that gives it.
    pub index: Index,
    /// For each occurrence the first place that says an operation of it.
    pub owners: Index,
    /// The group of what each record says.
    pub groups: Vec<Option<Group>>,
    /// For each group how many places are of it.
    pub counts: Counts,
    /// For each place the last before it of the same group.
    pub earlier: Vec<Option<usize>>,
}

// What is known of what records say.
pub fn reading_of(alloc: Global, said: Vec<Option<Item>>) -> Result<Reading, AllocError>
    ensures { IfOk result (λ reading. (records : List Fields) → AreSayings records said.items → IsReadingOf records reading) }
{
    let keys = keys_given(alloc, &said)?;
    let index = index_of(alloc, &keys)?;
    let owners = owners_given(alloc, &said)?;
    let owners = index_of(alloc, &owners)?;
    let groups = groups_said(alloc, &said)?;
    let counts = counts_of(alloc, &groups)?;
    let earlier = earlier_of(alloc, &groups)?;
    Ok(Reading {
        said,
        keys,
        index,
        owners,
        groups,
        counts,
        earlier,
    })
}
