// Whether valid contents are sound: whether their marks and flags fit together.

mod flags;
mod holders;
mod marks;
mod occurrences;
mod order;
mod verdict;

pub use verdict::judged;
