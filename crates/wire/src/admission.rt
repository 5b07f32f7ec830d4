//! What the head of a message decides: the tests of the head, in their order.
ghost use Rattle.std.specs.Prelude.{◌≡◌, ℕ, List, IfOk, Some, option_map, IsUtf8};
ghost use Rattle.httparse.specs.Grammar.{RequestHead};
ghost use Rattle.wire_server.specs.Heads.{Holds};
ghost use Rattle.wire_requests.specs.Methods.{kind_of};
ghost use Rattle.wire_requests.specs.Parameters.{AreParametersOf};
ghost use Rattle.wire_requests.specs.Table.{requests_of};
ghost use Rattle.wire_server.specs.Responses.{refused};
ghost use Rattle.wire.specs.Courses.{refuses, denied, by_method, by_route, by_caller, admission_of, admission_view};
ghost use Rattle.wire.specs.Courses.{HasParameters};
ghost use Rattle.httparse.specs.Spans.{IsRequestWithin, span_bytes};

use http::StatusCode;
use paths::StoreDir;
use policy::{Caller, CallerError, Config, Op, Rule, class, decide, store_dir};
use report::{Refusal, denial_line};
use std::alloc::{AllocError, Global};
use std::str;
use wire_requests::{Found, Kind, Parameters, Routes};
use wire_server::{Begun, Head, HeadFields, Response, read_caller};

/// An admitted message: its caller, the kind of its request, and the parameters of its target. The body has the rest.
#[derive(Drop)]
pub(crate) struct Endpoint {
    pub caller: Caller,
    pub kind: Kind,
    pub parameters: Parameters,
}

/// A refusal. `allow` lists the route's methods, for a refused method.
fn refuse(
    alloc: Global,
    refusal: Refusal,
    allow: Option<&'static str>,
) -> Result<Begun<Endpoint>, AllocError>
    ensures decides { IfOk result (λ it. admission_view it ≡ refuses (refused refusal (option_map (λ methods.
        methods.now) allow.entry))) }
    ensures parameters { (target : List ℕ) → IfOk result (HasParameters target) }
{
    Ok(Begun::Refused(Response::refused(alloc, refusal, allow)?))
}

/// The denial of a caller whom a rule forbids to connect.
fn deny(alloc: Global, dir: &StoreDir, rule: Rule) -> Result<Begun<Endpoint>, AllocError>
    ensures decides { IfOk result (λ it. admission_view it ≡ refuses (denied dir.now rule)) }
    ensures parameters { (target : List ℕ) → IfOk result (HasParameters target) }
{
    let line = denial_line(alloc, dir, rule, None)?;
    let response = Response::plain(alloc, StatusCode::FORBIDDEN, line.as_str())?;
    Ok(Begun::Refused(response))
}

/// The test of the method, on a route.
fn on_method(
    alloc: Global,
    caller: Caller,
    found: Found,
    method: &[u8],
) -> Result<Begun<Endpoint>, AllocError>
    ensures decides { IfOk result (λ it. admission_view it ≡ by_method caller found.requests (kind_of found.requests
        method.now)) }
    ensures parameters { (target : List ℕ) → AreParametersOf found.requests target found.parameters
        → IfOk result (HasParameters target) }
{
    let Found {
        requests,
        parameters,
    } = found;
    match requests.kind(alloc, method) {
        Some(kind) => Ok(Begun::Accepted(Endpoint {
            caller,
            kind,
            parameters,
        })),
        None => refuse(alloc, Refusal::BadMethod, Some(requests.allow())),
    }
}

/// The tests of the route and the method.
fn on_route(
    alloc: Global,
    routes: &Routes,
    caller: Caller,
    method: &[u8],
    target: &str,
) -> Result<Begun<Endpoint>, AllocError>
    ensures decides { IfOk result (λ it. admission_view it ≡ by_route caller method.now (requests_of target.now)) }
    ensures parameters { IfOk result (HasParameters target.now) }
{
    match routes.find(alloc, target)? {
        Some(found) => on_method(alloc, caller, found, method),
        None => refuse(alloc, Refusal::NoRoute, None),
    }
}

/// The tests of the rule `Connect`, the route and the method.
fn on_caller(
    alloc: Global,
    routes: &Routes,
    config: &Config,
    caller: Caller,
    method: &[u8],
    target: &str,
) -> Result<Begun<Endpoint>, AllocError>
    ensures decides { IfOk result (λ it. admission_view it ≡ by_caller config.now method.now target.now (Some caller)) }
    ensures parameters { IfOk result (HasParameters target.now) }
{
    // `Connect` comes before the route and the method, so it is tested before there is a request. `Store::call` decides
    // on the whole request later, and relies on no earlier decision.
    match decide(class(config, &caller), &caller, &Op::Plain) {
        Some(rule) => deny(alloc, store_dir(config), rule),
        None => on_route(alloc, routes, caller, method, target),
    }
}

/// The decision by the head of a message, which is in `held`.
///
/// # Errors
///
/// Memory was refused.
pub(crate) fn admit(
    alloc: Global,
    routes: &Routes,
    config: &Config,
    held: &[u8],
    head: &Head,
) -> Result<Begun<Endpoint>, AllocError>
    requires { (h : RequestHead) × Holds held.now head.now h }
    ensures decides { (h : RequestHead) → Holds held.now head.now h
        → IfOk result (λ it. admission_view it ≡ admission_of config.now h) }
    ensures parameters { (h : RequestHead) → Holds held.now head.now h → IfOk result (HasParameters h.target) }
{
    match read_caller(alloc, &HeadFields::new(held, head)) {
        Ok(caller) => {
            let method = method_of(held, head);
            let target = target_of(held, head);
            on_caller(alloc, routes, config, caller, method, target)
        }
        Err(CallerError::BadCaller) => refuse(alloc, Refusal::BadCaller, None),
        Err(CallerError::Memory) => Err(AllocError),
    }
}

/// The word of the message's method.
pub(crate) fn method_of<'b>(held: &'b [u8], head: &Head) -> &'b [u8]
    requires { IsRequestWithin held.now head.now.fields head.now.spans }
    ensures { result.now ≡ span_bytes held.now head.now.spans.method }
{
    head.spans.method.of(held)
}

/// The target of the message.
pub(crate) fn target_of<'b>(held: &'b [u8], head: &Head) -> &'b str
    requires within { IsRequestWithin held.now head.now.fields head.now.spans }
    requires text { IsUtf8 (span_bytes held.now head.now.spans.path) }
    ensures { result.now ≡ span_bytes held.now head.now.spans.path }
{
    match str::from_utf8(head.spans.path.of(held)) {
        Ok(target) => target,
        Err(_) => unreachable!(),
    }
}
