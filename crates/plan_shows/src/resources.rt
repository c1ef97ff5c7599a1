// Special resources, and who holds how much of each.
ghost use Rattle.std.specs.Prelude.{◌≡◌, ◌++◌, IfErr, IfOk, OnOk, flat_map};
ghost use Rattle.plan_basics.specs.declared.Refusal.{Refusal};
ghost use Rattle.plan_model.specs.Contents.{IsInPlan};
ghost use Rattle.plan_model.specs.Status.{HasStatus};
ghost use Rattle.plan_reasons.specs.plan_core.specs.start_choice.specs.Choices.{AreHeldIn};
ghost use Rattle.plan_shows.specs.Resources.{AreHolderViews, AreResourceViews, IsResourceView, IsShown, left_by, rows_of, taken_by};

use plan_basics::{OpKey, Refusal, ResName};
use plan_model::Stock;
use plan_reasons::{LoadedPlan, Plan, holdings_in};
use special_resources::{Claim, Holder, Holdings, Mode};
use status_rules::Status;
use std::alloc::{AllocError, Global};

/// An operation that holds a special resource.
#[derive(Clone, Copy)]
pub struct HolderView {
    pub op: OpKey,
    pub status: Status,
    pub mode: Mode,
    /// How much it holds: the whole quantity where it holds it exclusively.
    pub amount: u32,
}

/// A special resource, and how much of it is left.
#[derive(Clone, Copy)]
pub struct ResourceAmounts {
    pub name: ResName,
    pub stock: Stock,
    /// What those that hold it leave.
    pub left: u32,
}

/// A special resource, and all that hold it, in key order.
#[derive(Drop)]
pub struct ResourceView {
    pub amounts: ResourceAmounts,
    pub holders: Vec<HolderView>,
}

/// A row of the show of special resources.
#[derive(Clone, Copy)]
pub enum ResourceRow {
    Resource(ResourceAmounts),
    Holder(HolderView),
}

// How much of a quantity a claim takes.
fn taken_by(quantity: u32, claim: Claim) -> u32
    ensures { result ≡ taken_by quantity claim.mode claim.amount }
{
    match claim.mode {
        Mode::Exclusive => quantity,
        Mode::Shared => claim.amount,
    }
}

/// The status of an operation of the plan.
pub(crate) fn status_of(loaded: &LoadedPlan, key: &OpKey) -> Status
    requires { IsInPlan loaded.now key.now }
    ensures { HasStatus loaded.now key.now result }
{
    loaded.status_at(loaded.contents().known_operation_place(key))
}

// What is shown of a holder of a resource of which there is so much.
fn holder_view(loaded: &LoadedPlan, quantity: u32, holder: &Holder) -> HolderView
    requires { IsInPlan loaded.now holder.now.operation }
    ensures { IsShown loaded.now quantity holder.now result }
{
    HolderView {
        op: holder.operation,
        status: status_of(loaded, &holder.operation),
        mode: holder.claim.mode,
        amount: taken_by(quantity, holder.claim),
    }
}

// All that hold a resource of which there is so much, in key order.
fn holder_views(
    alloc: Global,
    loaded: &LoadedPlan,
    holdings: &Holdings,
    name: &ResName,
    quantity: u32,
) -> Result<Vec<HolderView>, AllocError>
    requires { AreHeldIn loaded.now holdings.now.held }
    ensures { IfOk result (λ views. AreHolderViews loaded.now name.now quantity views.items) }
{
    let holders = holdings.holders(name);
    let mut views = Vec::with_capacity(alloc, holders.len())?;
    for holder in holders {
        views.push(holder_view(loaded, quantity, holder))?;
    }
    Ok(views)
}

// What these leave of a quantity.
fn left_by(quantity: u32, holders: &[HolderView]) -> u32
    ensures { result ≡ left_by quantity holders.now }
{
    let mut left = quantity;
    for holder in holders {
        left = left.saturating_sub(holder.amount);
    }
    left
}

// A resource, with all that hold it.
fn resource_view(
    alloc: Global,
    loaded: &LoadedPlan,
    holdings: &Holdings,
    resource: &(ResName, Stock),
) -> Result<ResourceView, AllocError>
    requires { AreHeldIn loaded.now holdings.now.held }
    ensures { IfOk result (IsResourceView loaded.now resource.now) }
{
    let (name, stock) = *resource;
    let holders = holder_views(alloc, loaded, holdings, &name, stock.quantity)?;
    let amounts = ResourceAmounts {
        name,
        stock,
        left: left_by(stock.quantity, &holders),
    };
    Ok(ResourceView { amounts, holders })
}

// All special resources of a loaded plan, by name, where this is what is held.
fn views_with(
    alloc: Global,
    loaded: &LoadedPlan,
    holdings: &Holdings,
) -> Result<Vec<ResourceView>, AllocError>
    requires { AreHeldIn loaded.now holdings.now.held }
    ensures { IfOk result (λ views. AreResourceViews loaded.now views.items) }
{
    let mut views = Vec::new(alloc);
    for resource in loaded.contents().valid().resources() {
        views.push(resource_view(alloc, loaded, holdings, resource)?)?;
    }
    Ok(views)
}

// All special resources of a loaded plan, by name. The error is always `Memory`.
fn views_in(alloc: Global, loaded: &LoadedPlan) -> Result<Vec<ResourceView>, Refusal>
    ensures views { IfOk result (λ views. AreResourceViews loaded.now views.items) }
    ensures refused { IfErr result (λ r. r ≡ Refusal.Memory) }
{
    let holdings = holdings_in(alloc, loaded.contents().valid())?;
    Ok(views_with(alloc, loaded, &holdings)?)
}

/// All special resources of a plan, by name; none before one is loaded. The error is always `Memory`.
pub(crate) fn resource_views(alloc: Global, plan: &Plan) -> Result<Vec<ResourceView>, Refusal>
    ensures views { IfOk result (λ views. AreResourceViews plan.now.plan.contents views.items) }
    ensures refused { IfErr result (λ r. r ≡ Refusal.Memory) }
{
    match plan.loaded() {
        Some(loaded) => views_in(alloc, loaded),
        None => Ok(Vec::new(alloc)),
    }
}

// Puts the rows of a resource at the end.
fn note_rows(rows: &mut Vec<ResourceRow>, view: &ResourceView) -> Result<(), AllocError>
    ensures { OnOk result (rows.new.items ≡ rows.old.items ++ rows_of view.now) }
{
    rows.push(ResourceRow::Resource(view.amounts))?;
    for holder in view.holders.as_slice() {
        rows.push(ResourceRow::Holder(*holder))?;
    }
    Ok(())
}

/// The rows of resources, in their order. It fails for want of memory only.
pub(crate) fn resource_rows(
    alloc: Global,
    views: &[ResourceView],
) -> Result<Vec<ResourceRow>, AllocError>
    ensures { IfOk result (λ rows. rows.items ≡ flat_map rows_of views.now) }
{
    let mut rows = Vec::new(alloc);
    for view in views {
        note_rows(&mut rows, view)?;
    }
    Ok(rows)
}
