// The entries on a workstation, one after the other.
ghost use Rattle.std.specs.Prelude.{◌≡◌};
ghost use Rattle.std.specs.Iterator.{YieldsFirstRef, item_count};
ghost use Rattle.ready_list.specs.Entries.{on_workstation};

use crate::entry::ReadyEntry;
use plan_basics::WsName;
use std::marker::Model;

/// The entries on a workstation, in their order. Contracts see the list of those that are left.
#[derive(Drop)]
pub struct OnWorkstation<'a> {
    ws: WsName,
    entries: &'a [ReadyEntry],
}

impl<'a> Model for OnWorkstation<'a> {
    ghost use Rattle.std.specs.Prelude.{List};
    ghost use Rattle.ready_list.specs.declared.entry.ReadyEntry.{ReadyEntry};
    ghost use Rattle.ready_list.specs.Entries.{on_workstation};

    ghost Value = { List ReadyEntry };

    ghost view = { λ a. on_workstation a.ws a.entries.now };
}

impl<'a> OnWorkstation<'a> {
    /// Those of these entries that are on a workstation.
    pub(crate) fn new(ws: WsName, entries: &'a [ReadyEntry]) -> OnWorkstation<'a>
        ensures { result ≡ on_workstation ws entries.now }
    {
        OnWorkstation { ws, entries }
    }
}

impl<'a> Iterator for OnWorkstation<'a> {
    type Item = &'a ReadyEntry;

    ghost next_gives = { YieldsFirstRef (λ left. left) };

    ghost remaining = { item_count (λ left. left) };

    fn next(&mut self) -> Option<&'a ReadyEntry> {
        while let Some((entry, others)) = self.entries.split_first() {
            self.entries = others;
            if entry.ws == self.ws {
                return Some(entry);
            }
        }
        None
    }
}
