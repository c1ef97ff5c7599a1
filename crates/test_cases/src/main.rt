//! All tests: a module for each library of plays, which tells what it plays. The program does nothing.
#![tactic(auto)]

#[cfg(test)]
mod desk_plays;
#[cfg(test)]
mod exchange_plays;
#[cfg(test)]
mod layer_plays;
#[cfg(test)]
mod plan_plays;
#[cfg(test)]
mod stopped_desks;
#[cfg(test)]
mod text_plays;
#[cfg(test)]
mod want_plays;

fn main() {}
