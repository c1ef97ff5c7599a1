// Connections to a desk that fail.

#[test]
fn readers_and_writers_that_fail(rt: HostRuntime) -> Result<(), &'static str> {
    test_failures::played(rt.alloc(), test_failures::CONNECTIONS)
}

#[test]
fn a_journal_that_fails_at_each_call(rt: HostRuntime) -> Result<(), &'static str> {
    test_failures::a_journal_that_fails_at_each_call(rt.alloc())
}
