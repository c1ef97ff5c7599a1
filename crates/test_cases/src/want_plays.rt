// Want of memory: calls without any, and calls that are made again and again while all memory is given back block by block.
use super::plan_plays::told;
use test_nights::plans;

#[test]
fn run_is_made_at_last(rt: HostRuntime) {
    assert!(rt; plans::run_is_made_at_last(rt.alloc()));
}

#[test]
fn all_is_made_at_last(rt: HostRuntime) -> Result<(), &'static str> {
    plans::all_is_made_at_last(rt.alloc())
}

#[test]
fn nights_in_want_of_memory(rt: HostRuntime) -> Result<(), &'static str> {
    told(plans::nights_in_want_of_memory(rt.alloc()))
}

#[test]
fn a_failed_run_is_run_again(rt: HostRuntime) -> Result<(), &'static str> {
    test_failures::played(rt.alloc(), test_failures::FAILED_RUN)
}

#[test]
fn a_night_to_its_end(rt: HostRuntime) -> Result<(), &'static str> {
    test_failures::played(rt.alloc(), test_failures::WHOLE_NIGHT)
}

#[test]
fn a_night_is_deleted(rt: HostRuntime) -> Result<(), &'static str> {
    test_failures::played(rt.alloc(), test_failures::DELETED_NIGHT)
}

#[test]
fn reports_of_a_tracker(rt: HostRuntime) -> Result<(), &'static str> {
    test_failures::played(rt.alloc(), test_failures::REPORTS)
}

#[test]
fn tables_of_the_first_version_are_opened(rt: HostRuntime) -> Result<(), &'static str> {
    test_failures::played(rt.alloc(), test_failures::FIRST_VERSION)
}

#[test]
fn reports_and_reasons_in_want_of_memory(rt: HostRuntime) -> Result<(), &'static str> {
    test_failures::each_played(rt.alloc(), test_failures::LOOKS)
}
