//! `validate`: what is wrong with the text of a plan or of a request, and with an extension's, without a plan or beside that of
//! a desk.
#![tactic(auto)]

mod beside;
mod texts;
mod validating;

pub use validating::validate;
