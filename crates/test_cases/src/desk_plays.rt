// Desks over a store in memory that counts.

#[test]
fn rows_that_are_written(rt: HostRuntime) -> Result<(), &'static str> {
    test_failures::rows_that_are_written(rt.alloc())
}

#[test]
fn no_desk_is_made_where_a_name_is_taken(rt: HostRuntime) {
    assert!(rt; test_failures::none_is_made(rt.alloc()));
}
