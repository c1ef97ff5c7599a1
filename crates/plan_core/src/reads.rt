// What is read off the plan.
ghost use Rattle.std.specs.Prelude.{◌≡◌, ◌↔◌, true, IfSome, IsNone, IsSome};
ghost use Rattle.std.specs.FinMap.{contains_key};
ghost use Rattle.plan_model.specs.Contents.{nothing, IsInPlan};
ghost use Rattle.plan_opening.specs.plan_rows.specs.Sources.{plan_if_any, IsSource};
ghost use Rattle.plan_core.specs.Views.{AreReadyViews, IsOpView, IsOccView, AreOpViews, AreOccViews};

use super::lists::{Occs, Ops};
use super::plan::Plan;
use super::ready_views::Ready;
use super::views::{OccView, OpView, occ_view, op_view};
use plan_basics::{OccKey, OpKey, WsName};
use plan_opening::{LoadedPlan, RowSource};

impl Plan {
    /// Whether a plan is loaded.
    pub fn is_loaded(&self) -> bool
        ensures { result ≡ self.now.plan.loaded }
    {
        self.loaded.is_some()
    }

    /// What is kept of the plan, if one is loaded, for a reader that needs more of it than the views tell.
    pub fn loaded(&self) -> Option<&LoadedPlan>
        ensures none { IsNone result → self.now.plan.contents ≡ nothing }
        ensures contents { IfSome result (λ l. l.now ≡ self.now.plan.contents) }
    {
        self.loaded.as_ref()
    }

    // The source of the plan, if one is loaded.
    pub(crate) fn source(&self) -> Option<RowSource<'_>>
        ensures none { IsNone result → self.now.plan.contents ≡ nothing }
        ensures contents { IfSome result (λ s. s.contents.now ≡ self.now.plan.contents) }
        ensures plan { plan_if_any self.now.plan.clock result ≡ self.now.plan }
        ensures source { IfSome result IsSource }
    {
        match &self.loaded {
            Some(loaded) => Some(RowSource::of(loaded)),
            None => None,
        }
    }

    /// An operation of the plan, if it is there.
    pub fn view_op(&self, key: &OpKey) -> Option<OpView>
        ensures some { IsSome result ↔ IsInPlan self.now.plan.contents key.now }
        ensures view { IfSome result (λ v. (v.key ≡ key.now) × IsOpView self.now.plan.contents v) }
    {
        let source = self.source()?;
        let place = source.contents.operation_place(key)?;
        Some(op_view(source, place))
    }

    /// An occurrence of the plan, if it is there.
    pub fn view_occ(&self, key: &OccKey) -> Option<OccView>
        ensures some { IsSome result ↔ (contains_key self.now.plan.contents.occurrences key.now ≡ true) }
        ensures view { IfSome result (λ v. (v.key ≡ key.now) × IsOccView self.now.plan.contents v) }
    {
        let source = self.source()?;
        let place = source.contents.occurrence_place(key)?;
        Some(occ_view(source, place))
    }

    /// All operations of the plan, in key order.
    pub fn ops(&self) -> Ops<'_>
        ensures { AreOpViews self.now.plan.contents result }
    {
        Ops::new(self.source())
    }

    /// All occurrences of the plan, in key order.
    pub fn occs(&self) -> Occs<'_>
        ensures { AreOccViews self.now.plan.contents result }
    {
        Occs::new(self.source())
    }

    /// What is ready on a workstation, in the order of the ready list, held operations too; `None` where the workstation
    /// isn't in the plan.
    pub fn ready(&self, workstation: &WsName) -> Option<Ready<'_>>
        ensures some { IsSome result ↔ (contains_key self.now.plan.contents.workstations workstation.now ≡ true) }
        ensures views { IfSome result (AreReadyViews self.now.plan.contents workstation.now) }
    {
        let loaded = self.loaded.as_ref()?;
        loaded.contents().workstation(workstation)?;
        let entries = loaded.ready().of_ws(workstation);
        Some(Ready::new(RowSource::of(loaded), entries))
    }
}
