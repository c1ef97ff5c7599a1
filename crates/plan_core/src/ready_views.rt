// What is ready on a workstation, one operation after the other.
ghost use Rattle.std.specs.Prelude.{◌≡◌};
ghost use Rattle.std.specs.Iterator.{YieldsFirst, item_count};
ghost use Rattle.plan_core.specs.Views.{ready_views, AreEntriesOf};

use super::views::{OpView, op_view};
use plan_opening::RowSource;
use ready_list::OnWorkstation;
use std::marker::Model;

/// The operations that are ready on a workstation, in the order of the ready list. Contracts see the list of those that
/// are left.
#[derive(Drop)]
pub struct Ready<'a> {
    source: RowSource<'a>,
    entries: OnWorkstation<'a>,
}

impl<'a> Model for Ready<'a> {
    ghost use Rattle.std.specs.Prelude.{List};
    ghost use Rattle.plan_core.specs.declared.views.OpView.{OpView};
    ghost use Rattle.plan_core.specs.Views.{ready_views, AreEntriesOf};

    ghost Value = { List OpView };

    ghost view = { λ a. ready_views a.source a.entries };

    ghost invariant = { λ a. AreEntriesOf a.source a.entries };
}

impl<'a> Ready<'a> {
    /// The operations of these entries, which the source has.
    pub(crate) fn new(source: RowSource<'a>, entries: OnWorkstation<'a>) -> Ready<'a>
        requires { AreEntriesOf source entries }
        ensures { result ≡ ready_views source.entry entries.entry }
    {
        Ready { source, entries }
    }
}

impl<'a> Iterator for Ready<'a> {
    type Item = OpView;

    ghost next_gives = { YieldsFirst (λ left. left) };

    ghost remaining = { item_count (λ left. left) };

    fn next(&mut self) -> Option<OpView> {
        let entry = self.entries.next()?;
        let row = self.source.contents.known_operation_place(&entry.key.op);
        Some(op_view(self.source, row))
    }
}
