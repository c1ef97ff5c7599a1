//! The permit to count the looks at a plan's records: whoever lists this crate can make counted records, and take them apart again.
#![tactic(auto)]

/// The permit to make counted records and to take them apart. A crate that doesn't list this one can't get one.
#[derive(Drop)]
pub struct Permit {
    granted: (),
}

/// A permit.
pub fn granted() -> Permit {
    Permit { granted: () }
}
