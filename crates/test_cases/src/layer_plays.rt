// Plays of the lower layers.
use std::test::Fail;
use test_layers::{graphs, holdings, minutes, receipts, starts, watching};

#[test]
fn minutes_and_their_texts(_rt: HostRuntime) -> Result<(), &'static str> {
    minutes::minutes_and_their_texts()
}

#[test]
fn faults_are_remembered(_rt: HostRuntime) -> Result<(), &'static str> {
    watching::faults_are_remembered()
}

#[test]
fn calls_of_a_graph(rt: HostRuntime) -> Result<(), &'static str> {
    graphs::calls_of_a_graph(rt.alloc())
}

#[test]
fn latest_starts_of_a_chain(rt: HostRuntime) -> Result<(), &'static str> {
    starts::latest_starts_of_a_chain(rt.alloc())
}

#[test]
fn what_is_held_ready_and_stored(rt: HostRuntime) -> Result<(), Fail> {
    holdings::what_is_held_and_ready(rt.alloc())?;
    assert!(rt; receipts::a_receipt_is_stored_and_read_again(rt.alloc()) == Some(true));
    Ok(())
}
