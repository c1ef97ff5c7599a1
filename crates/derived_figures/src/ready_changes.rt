// The ready list, once operations have other statuses.
ghost use Rattle.std.specs.Prelude.{◌≡◌, ◌+◌, ℕ, List, Some, length, slice_get, slice_set};
ghost use Rattle.status_rules.specs.declared.Status.{Status as StatusValue};
ghost use Rattle.plan_model.specs.Contents.{Contents};
ghost use Rattle.derived_figures.specs.ByStatuses.{AreEntriesBy, HasRoomForAll};
ghost use Rattle.derived_figures.specs.Entries.{CanBeRelisted, IsEntryAt};
ghost use Rattle.derived_figures.specs.Overwritten.{overwritten};

use ready_list::{ReadyEntry, ReadyList};
use status_rules::Status;

/// The operation of this entry has another status: the entry is taken out where it isn't ready any more, and put in where it is
/// ready now. It takes no memory.
pub fn relist(ready: &mut ReadyList, entry: &ReadyEntry, old: Status, new: Status)
    requires { (P : Contents) × (place : ℕ) × (statuses : List StatusValue) × IsEntryAt P place entry.now × (slice_get statuses place ≡ Some old) × AreEntriesBy P statuses ready.old.entries × HasRoomForAll P ready.old }
    ensures listed { (P : Contents) (place : ℕ) (statuses : List StatusValue) → IsEntryAt P place entry.now → slice_get statuses place ≡ Some old → AreEntriesBy P statuses ready.old.entries → AreEntriesBy P (slice_set statuses place new) ready.new.entries }
    ensures room { length ready.new.entries + ready.new.room ≡ length ready.old.entries + ready.old.room }
{
    if old.is_ready() == new.is_ready() {
        return;
    }
    if new.is_ready() {
        ready.insert(*entry);
    } else {
        ready.remove(&entry.key);
    }
}

/// Writes these statuses at their places; the ready list, which goes by the statuses, follows. For each there is the entry of the
/// operation there, so nothing of the plan is looked at. It takes no memory.
pub fn relist_all(
    statuses: &mut [Status],
    ready: &mut ReadyList,
    to: &[(usize, Status)],
    entries: &[ReadyEntry],
)
    requires { (P : Contents) × CanBeRelisted P statuses.old ready.old to.now entries.now }
    ensures statuses { statuses.new ≡ overwritten to.now statuses.old }
    ensures listed { (P : Contents) → CanBeRelisted P statuses.old ready.old to.now entries.now → AreEntriesBy P statuses.new ready.new.entries }
    ensures room { length ready.new.entries + ready.new.room ≡ length ready.old.entries + ready.old.room }
{
    for (index, value) in to.iter().enumerate() {
        relist(ready, &entries[index], statuses[value.0], value.1);
        statuses[value.0] = value.1;
    }
}
