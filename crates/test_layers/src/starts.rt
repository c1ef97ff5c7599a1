//! The latest starts of a chain, worked out at once and as a change.
ghost use Rattle.std.specs.Prelude.{◌≡◌, length};

use super::graphs::graph_of;
use super::tables::all_so;
use latest_start::{Item, Latest};
use operation_graph::Graph;
use plan_basics::Moment;
use std::alloc::Global;

// An operation that takes so long, with its deadline at minute 100.
fn item(duration: u16) -> Option<Item> {
    Some(Item {
        duration,
        deadline: Moment::new(100)?,
        live: true,
    })
}

// Whether each of the chain starts as late as leaves time for those after it, where all starts are worked out at once.
fn starts_at_once(alloc: Global, graph: &Graph, items: &[Item]) -> bool
    requires nodes { graph.now.nodes ≡ 3 }
    requires items { length items.now ≡ 3 }
{
    match Latest::build(alloc, graph, items) {
        Ok(latest) => latest.of(0) == 40 && latest.of(1) == 50 && latest.of(2) == 70,
        Err(_) => false,
    }
}

// Whether all three are new where there was no operation before.
fn starts_as_a_change(alloc: Global, graph: &Graph, items: &[Item]) -> bool
    requires nodes { graph.now.nodes ≡ 3 }
    requires items { length items.now ≡ 3 }
{
    match Latest::build(alloc, &Graph::new(alloc), &[]) {
        Ok(mut latest) => match latest.after_change(graph, items, &[0, 1, 2]) {
            Ok(values) => {
                latest.update(&values);
                values.as_slice() == [(0, 40), (1, 50), (2, 70)].as_slice() && latest.of(2) == 70
            }
            Err(_) => false,
        },
        Err(_) => false,
    }
}

fn are_told(alloc: Global, graph: &Graph, items: &[Item]) -> Result<(), &'static str> {
    if graph.nodes() != 3 || items.len() != 3 {
        return Err("three operations");
    }
    all_so(&[
        (starts_at_once(alloc, graph, items), "at once"),
        (starts_as_a_change(alloc, graph, items), "as a change"),
    ])
}

// The operations of a chain, of 10, 20 and 30 minutes.
fn chain() -> Option<[Item; 3]> {
    Some([item(10)?, item(20)?, item(30)?])
}

/// The latest starts of a chain of three operations.
pub fn latest_starts_of_a_chain(alloc: Global) -> Result<(), &'static str> {
    let items = chain().ok_or("the operations")?;
    match graph_of(alloc, 3, &[(0, 1), (1, 2)]) {
        Some(graph) => are_told(alloc, &graph, &items),
        None => Err("the chain"),
    }
}
