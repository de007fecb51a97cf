//! What comes first of a request: a refusal, or the way to its first step.

ghost use Rattle.std.specs.Prelude.{◌≡◌, IfOk};
ghost use Rattle.middleware_chain.specs.Begun.{HasStatus, begun_at, begun_of, refused};

use crate::context::{Context, context_of};
use crate::csrf_view::csrf_view;
use crate::field_limit::has_too_many_fields;
use crate::fields::body_fields;
use crate::host_check::is_allowed;
use crate::refusal::{Refusal, refusal_page};
use crate::route::{Route, lacks_slash, methods_of, route_of, takes};
use crate::settings::Settings;
use csrf_tokens::check;
use http_edge::{Request, Response};
use std::alloc::{AllocError, Global};

/// What comes first of a request.
#[derive(Drop)]
pub enum Begun {
    /// It is refused before any step.
    Answer(Response),
    /// Its route goes on with this.
    Go(Context),
}

/// The response to a request that is refused before any step, or what its route goes on with. The host is looked at first,
/// then the path, the method, the number of fields, and whether the request is forged.
#[tactic(auto, unfolding(crate::specs::Begun::begun_of))]
pub fn begin(alloc: Global, settings: &Settings, request: &Request) -> Result<Begun, AllocError>
    ensures value { IfOk result (λ begun. begun ≡ begun_of settings.now request.now) }
    ensures status { IfOk result HasStatus }
{
    let path = request.path.as_str();
    if !is_allowed(&settings.allowed, request.host.as_ref()) {
        return refused(alloc, Refusal::BadHost, request);
    }
    if lacks_slash(path) {
        return refused(alloc, Refusal::NoSlash, request);
    }
    match route_of(alloc, path)? {
        Some(route) => begin_at(alloc, settings, request, route),
        None => refused(alloc, Refusal::NoRoute, request),
    }
}

#[tactic(auto, unfolding(crate::specs::Begun::begun_at))]
fn begin_at(
    alloc: Global,
    settings: &Settings,
    request: &Request,
    route: Route,
) -> Result<Begun, AllocError>
    ensures value { IfOk result (λ begun. begun ≡ begun_at settings.now request.now route) }
    ensures status { IfOk result HasStatus }
{
    let methods = methods_of(&route);
    if !takes(methods, request.method) {
        return refused(alloc, Refusal::OtherMethod { methods }, request);
    }
    if has_too_many_fields(request) {
        return refused(alloc, Refusal::TooManyFields, request);
    }
    let fields = body_fields(alloc, request)?;
    match check(&csrf_view(settings, request, fields.items())) {
        Ok(()) => Ok(Begun::Go(context_of(alloc, route, request, fields)?)),
        Err(reason) => refused(alloc, Refusal::Csrf { reason }, request),
    }
}

fn refused(alloc: Global, refusal: Refusal, request: &Request) -> Result<Begun, AllocError>
    ensures value { IfOk result (λ begun. begun ≡ refused refusal request.now) }
    ensures status { IfOk result HasStatus }
{
    Ok(Begun::Answer(refusal_page(alloc, refusal, request)?))
}
