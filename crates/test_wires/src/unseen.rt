// What contracts see nothing of.
use std::marker::Model;

/// A value of which contracts see nothing: plays compare what it answers and tells as they run.
#[derive(Drop)]
pub struct Unseen<T: Drop> {
    pub held: T,
}

impl<T: Drop> Model for Unseen<T> {
    ghost use Rattle.std.specs.Prelude.{Bool, true};

    ghost Value = { Bool };

    ghost view = { λ _. true };
}
