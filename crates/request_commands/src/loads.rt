// Loads into databases: the desk of a database, made where it has no table and opened otherwise, and what it answers to
// the load of a text's plan.

mod database;

pub use database::load_into;
