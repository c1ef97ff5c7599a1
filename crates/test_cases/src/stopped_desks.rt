// Desks that are stopped, and tables that are damaged.
use test_failures::{End, Stops};

#[test]
fn damaged_tables_are_not_opened(rt: HostRuntime) -> Result<(), &'static str> {
    test_failures::damaged_tables_are_not_opened(rt.alloc())
}

#[test]
fn a_process_killed_at_each_call(rt: HostRuntime) -> Result<(), &'static str> {
    test_failures::the_night_is_stopped(rt.alloc(), End::KILLED)
}

#[test]
fn the_power_cut_at_each_call(rt: HostRuntime) -> Result<(), &'static str> {
    test_failures::the_night_is_stopped(rt.alloc(), End::POWER_CUT)
}

#[test]
fn the_power_cut_after_each_step(rt: HostRuntime) -> Result<(), &'static str> {
    test_failures::the_power_cut_after_each_step(rt.alloc())
}

#[test]
fn an_opening_killed_at_each_call(rt: HostRuntime) -> Result<(), &'static str> {
    test_failures::the_opening_is_stopped(rt.alloc(), End::KILLED)
}

#[test]
fn an_opening_cut_at_each_call(rt: HostRuntime) -> Result<(), &'static str> {
    test_failures::the_opening_is_stopped(rt.alloc(), End::POWER_CUT)
}

#[test]
fn each_kind_killed_at_each_call(rt: HostRuntime) -> Result<(), &'static str> {
    test_failures::each_kind_is_stopped(rt.alloc(), Stops::Once(End::KILLED))
}

#[test]
fn each_kind_cut_at_each_call(rt: HostRuntime) -> Result<(), &'static str> {
    test_failures::each_kind_is_stopped(rt.alloc(), Stops::Once(End::POWER_CUT))
}

#[test]
fn each_kind_where_the_log_loses(rt: HostRuntime) -> Result<(), &'static str> {
    test_failures::each_kind_is_stopped(rt.alloc(), Stops::Once(End::LOG_LOSES))
}

#[test]
fn each_kind_where_the_database_loses(rt: HostRuntime) -> Result<(), &'static str> {
    test_failures::each_kind_is_stopped(rt.alloc(), Stops::Once(End::DATABASE_LOSES))
}

#[test]
fn an_opening_cut_after_each_stop_of_the_log(rt: HostRuntime) -> Result<(), &'static str> {
    test_failures::each_kind_is_stopped(rt.alloc(), Stops::Twice(true))
}

#[test]
fn an_opening_cut_after_each_stop_of_the_database(rt: HostRuntime) -> Result<(), &'static str> {
    test_failures::each_kind_is_stopped(rt.alloc(), Stops::Twice(false))
}
