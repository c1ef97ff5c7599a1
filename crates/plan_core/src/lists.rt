// All operations or all occurrences of the plan, one after the other.
ghost use Rattle.std.specs.Prelude.{◌≡◌};
ghost use Rattle.std.specs.Iterator.{YieldsFirst, item_count};
ghost use Rattle.plan_opening.specs.plan_rows.specs.Sources.{IsSourceIfAny};
ghost use Rattle.plan_core.specs.Views.{op_views, occ_views, views_from};

use super::views::{OccView, OpView, occ_view, op_view};
use plan_opening::RowSource;
use std::marker::Model;

/// The operations of the plan from an index on, in key order. Contracts see the list of those that are left.
#[derive(Drop)]
pub struct Ops<'a> {
    source: Option<RowSource<'a>>,
    place: usize,
}

impl<'a> Model for Ops<'a> {
    ghost use Rattle.std.specs.Prelude.{List};
    ghost use Rattle.plan_core.specs.declared.views.OpView.{OpView};
    ghost use Rattle.plan_core.specs.Views.{op_views, views_from};
    ghost use Rattle.plan_opening.specs.plan_rows.specs.Sources.{IsSourceIfAny};

    ghost Value = { List OpView };

    ghost view = { λ a. views_from op_views a.source a.place };

    ghost invariant = { λ a. IsSourceIfAny a.source };
}

impl<'a> Ops<'a> {
    /// All operations of a source; none where there is none.
    pub(crate) fn new(source: Option<RowSource<'a>>) -> Ops<'a>
        requires { IsSourceIfAny source }
        ensures { result ≡ views_from op_views source.entry 0 }
    {
        Ops { source, place: 0 }
    }
}

impl<'a> Iterator for Ops<'a> {
    type Item = OpView;

    ghost next_gives = { YieldsFirst (λ left. left) };

    ghost remaining = { item_count (λ left. left) };

    fn next(&mut self) -> Option<OpView> {
        let source = self.source?;
        let place = self.place;
        if place >= source.contents.operations().len() {
            return None;
        }
        self.place = place + 1;
        Some(op_view(source, place))
    }
}

/// The occurrences of the plan from an index on, in key order. Contracts see the list of those that are left.
#[derive(Drop)]
pub struct Occs<'a> {
    source: Option<RowSource<'a>>,
    place: usize,
}

impl<'a> Model for Occs<'a> {
    ghost use Rattle.std.specs.Prelude.{List};
    ghost use Rattle.plan_core.specs.declared.views.OccView.{OccView};
    ghost use Rattle.plan_core.specs.Views.{occ_views, views_from};
    ghost use Rattle.plan_opening.specs.plan_rows.specs.Sources.{IsSourceIfAny};

    ghost Value = { List OccView };

    ghost view = { λ a. views_from occ_views a.source a.place };

    ghost invariant = { λ a. IsSourceIfAny a.source };
}

impl<'a> Occs<'a> {
    /// All occurrences of a source; none where there is none.
    pub(crate) fn new(source: Option<RowSource<'a>>) -> Occs<'a>
        requires { IsSourceIfAny source }
        ensures { result ≡ views_from occ_views source.entry 0 }
    {
        Occs { source, place: 0 }
    }
}

impl<'a> Iterator for Occs<'a> {
    type Item = OccView;

    ghost next_gives = { YieldsFirst (λ left. left) };

    ghost remaining = { item_count (λ left. left) };

    fn next(&mut self) -> Option<OccView> {
        let source = self.source?;
        let place = self.place;
        if place >= source.contents.occurrences().len() {
            return None;
        }
        self.place = place + 1;
        Some(occ_view(source, place))
    }
}
