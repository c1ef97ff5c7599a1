// The turns of a script.
use super::benches::{Had, read_operator};
use super::connections::Failing;
use super::exchanges::Exchange;
use plan_records::Request;
use std::alloc::Global;
use test_wires::NIGHT;

/// A turn.
#[derive(Drop)]
pub enum Turn<'a> {
    /// A desk is made or opened.
    Had(Had),
    /// The tables of the first version are made, with a night.
    First,
    /// The tables are changed by a text.
    Sql(&'a str),
    /// The desk is closed.
    Close,
    /// What an operator asks of the desk, and what is told.
    Asked(Request, &'a str),
    /// What is sent to it.
    Sent(Exchange),
    /// A connection to it fails.
    Failing(Failing),
    /// How an operation stands.
    Stands(&'a str),
}

impl Turn<'_> {
    /// Whether it isn't done without memory.
    pub fn wants_memory(&self) -> bool {
        match self {
            Turn::Close | Turn::Stands(_) => false,
            Turn::Asked(_, told) => told.starts_with("names"),
            _ => true,
        }
    }

    /// Whether it may act and then lack the memory to say so. Made again it doesn't act again.
    pub fn may_act_untold(&self) -> bool {
        matches!(self, Turn::Sent(_))
    }
}

// The body of a request, for which NIGHT may stand.
fn body_of(body: &str) -> &str {
    match body {
        "NIGHT" => NIGHT,
        _ => body,
    }
}

// What an operator asks by a body.
fn asked<'a>(alloc: Global, body: &str, told: &'a str) -> Option<Turn<'a>> {
    match read_operator(alloc, body_of(body).as_bytes()) {
        Ok(Some(request)) => Some(Turn::Asked(request, told)),
        _ => None,
    }
}

// What is sent to a desk, and what is told: a status and a body.
fn sent<'a>(alloc: Global, request: &str, told: &str) -> Option<Turn<'a>> {
    let (path, body) = request.split_once(' ')?;
    let (status, reply) = told.split_once(" | ")?;
    match Exchange::new(alloc, path, body_of(body), status, reply) {
        Some(exchange) => Some(Turn::Sent(exchange)),
        None => None,
    }
}

// The turn of a line that says what is told, or how an operation stands.
fn told<'a>(alloc: Global, line: &'a str) -> Option<Turn<'a>> {
    let Some((request, told)) = line.split_once(" | ") else {
        return Some(Turn::Stands(line));
    };
    if request.starts_with('{') || request == "NIGHT" {
        asked(alloc, request, told)
    } else {
        sent(alloc, request, told)
    }
}

/// The turn of a line.
pub fn turn_of<'a>(alloc: Global, line: &'a str) -> Option<Turn<'a>> {
    match line {
        "create" => Some(Turn::Had(Had::Made)),
        "open" => Some(Turn::Had(Had::Opened)),
        "first" => Some(Turn::First),
        "close" => Some(Turn::Close),
        "reader" => Some(Turn::Failing(Failing::Reader)),
        "writer" => Some(Turn::Failing(Failing::Writer)),
        "report" => Some(Turn::Failing(Failing::Report)),
        _ => match line.strip_prefix("sql ") {
            Some(sql) => Some(Turn::Sql(sql)),
            None => told(alloc, line),
        },
    }
}
