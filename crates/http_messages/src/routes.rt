// The first line of a request: its path's route, and the method that the route takes.
ghost use Rattle.std.specs.Prelude.{◌≡◌, List, ℕ, IfOk, MatchOption, MatchResult};
ghost use Rattle.percent_encoding.specs.Percent.{percent_decode as unescaped};
ghost use Rattle.http_messages.specs.Routes.{path_of as path_before, IsReadyPath, Matches, method_of};
ghost use Rattle.http_messages.specs.Statuses.{method_text};
ghost use Rattle.http_messages.specs.Tests.{Takes, FailsIn};

use crate::asking::Rejection;
use crate::bytes::{before, rest_after};
use crate::statuses::Method;
use percent_encoding::percent_decode;
use std::alloc::{AllocError, Global};

/// What a path stands for.
#[derive(Clone, Copy)]
pub(crate) enum Route {
    Report,
    Operator,
    Ready,
    Occurrences,
}

impl Route {
    /// The method that the route takes.
    pub(crate) fn method(self) -> Method
        ensures { result ≡ method_of self }
    {
        match self {
            Route::Report | Route::Operator => Method::Post,
            Route::Ready | Route::Occurrences => Method::Get,
        }
    }
}

/// What stands before `{ws}` in the path of a ready list.
const READY: &[u8] = b"/ready/";

/// A target up to its first question mark.
pub(crate) fn path_of(target: &[u8]) -> &[u8]
    ensures { result.now ≡ path_before target.now }
{
    before(target, b'?')
}

/// The segment that a path has after `/ready/`, if that is all that it has.
fn ready_segment(path: &[u8]) -> Option<&[u8]>
    ensures { MatchOption result ((segment : List ℕ) → ¬ IsReadyPath path.now segment) (λ segment. IsReadyPath path.now segment.now) }
{
    let rest = match rest_after(path, READY) {
        Some(rest) => rest,
        None => return None,
    };
    if rest.contains(&b'/') {
        return None;
    }
    Some(rest)
}

/// The route of a path, if it has one.
fn route_of(path: &[u8]) -> Option<Route>
    ensures { MatchOption result ((r : Route) → ¬ Matches path.now r) (Matches path.now) }
{
    if std::str::from_utf8(path).is_err() {
        return None;
    }
    if path == "/report".as_bytes() {
        return Some(Route::Report);
    }
    if path == "/operator".as_bytes() {
        return Some(Route::Operator);
    }
    if path == "/occurrences".as_bytes() {
        return Some(Route::Occurrences);
    }
    if ready_segment(path).is_some() {
        return Some(Route::Ready);
    }
    None
}

/// The route that a request's first line takes, or the first test of the line that it fails.
pub(crate) fn route_of_line(method: &[u8], target: &[u8]) -> Result<Route, Rejection>
    ensures { (most : ℕ) (fields : List (List ℕ × List ℕ)) (rest : List ℕ)
        → MatchResult result (Takes (record { method = method.now; target = target.now; fields = fields; rest = rest }))
        (FailsIn most (record { method = method.now; target = target.now; fields = fields; rest = rest })) }
{
    if target.first() != Some(&b'/') {
        return Err(Rejection::OtherForm);
    }
    let Some(route) = route_of(path_of(target)) else {
        return Err(Rejection::NoRoute);
    };
    if method != route.method().as_str().as_bytes() {
        return Err(Rejection::OtherMethod(route.method()));
    }
    Ok(route)
}

/// The segment that names a workstation, without its escapes.
pub(crate) fn segment_of(alloc: Global, target: &[u8]) -> Result<Vec<u8>, AllocError>
    requires ready { (segment : List ℕ) × IsReadyPath (path_before target.now) segment }
    ensures segment { IfOk result (λ name. (segment : List ℕ) × IsReadyPath (path_before target.now) segment × (name.items ≡ unescaped segment)) }
{
    let mut name = Vec::new(alloc);
    percent_decode(&path_of(target)[READY.len()..]).append_to(&mut name)?;
    Ok(name)
}
