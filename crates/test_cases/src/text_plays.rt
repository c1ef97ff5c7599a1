// What texts denote and what is told of them: the plays of texts.
use test_layers::{pieces, resources, words};

#[test]
fn pieces_of_any_size(rt: HostRuntime) -> Result<(), &'static str> {
    pieces::pieces_of_any_size(rt.alloc())
}

#[test]
fn each_read_fails_once(rt: HostRuntime) -> Result<(), &'static str> {
    pieces::each_read_fails_once(rt.alloc())
}

#[test]
fn as_much_as_may_be_and_more(rt: HostRuntime) -> Result<(), &'static str> {
    resources::as_much_as_may_be_and_more(rt.alloc())
}

#[test]
fn words_of_faults(rt: HostRuntime) -> Result<(), &'static str> {
    words::words_of_texts(rt.alloc())?;
    words::words_of_groups(rt.alloc())
}
