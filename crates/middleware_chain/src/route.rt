//! The routes of a site: their paths, and the methods that they take.

ghost use Rattle.std.specs.Prelude.{◌≡◌, IfNone, IfOk, IfSome, None, Some, option_copied};
ghost use Rattle.std.specs.List.{after_first, before_first, list_any};
ghost use Rattle.csrf_tokens.specs.Marks.{before_mark};
ghost use Rattle.middleware_chain.specs.Route.{allow_text, is_slash, lacks_slash, link_parts, methods_of, plain_route, reads, reset_route, route_named, route_of, sends, takes};

use crypto_text::{Text, cut_at_first};
use http_edge::Method;
use std::alloc::{AllocError, Global};

/// A route, with the parts of its path that vary. It has no `Debug`, so that no token is printed.
#[derive(Drop)]
pub enum Route {
    /// Who is asking.
    Whoami,
    Login,
    Logout,
    /// The entries of the session.
    Session,
    /// Whether the user has a permission.
    Perms,
    PasswordChange,
    /// Where a reset mail is asked for.
    PasswordReset,
    /// The link of a reset mail.
    ResetLink { uid: Text, token: Text },
    /// The form of a new password after a link was followed.
    ResetSet { uid: Text },
}

/// The methods that a route takes.
#[derive(Clone, Copy, Debug, PartialEq, Eq)]
pub enum Methods {
    /// GET and HEAD.
    Safe,
    /// POST.
    Form,
    SafeAndForm,
}

/// The route of a path.
#[tactic(auto, unfolding(crate::specs::Route::route_of))]
pub fn route_of(alloc: Global, path: &str) -> Result<Option<Route>, AllocError>
    ensures { IfOk result (λ route. route ≡ route_of path.now) }
{
    match without_slash(path) {
        Some(name) => route_named(alloc, name),
        None => Ok(None),
    }
}

fn without_slash(path: &str) -> Option<&str>
    ensures { option_copied result ≡ before_mark 47 path.now }
{
    path.strip_suffix('/')
}

/// Whether this path lacks but its last slash to be a route's. Takes no memory.
#[tactic(auto, unfolding(crate::specs::Route::lacks_slash))]
pub fn lacks_slash(path: &str) -> bool
    ensures { result ≡ lacks_slash path.now }
{
    plain_route(path).is_some() || link_parts(path).is_some()
}

#[tactic(auto, unfolding(crate::specs::Route::route_named))]
fn route_named(alloc: Global, name: &str) -> Result<Option<Route>, AllocError>
    ensures { IfOk result (λ route. route ≡ route_named name.now) }
{
    if let Some(route) = plain_route(name) {
        return Ok(Some(route));
    }
    match link_parts(name) {
        Some((uid, token)) => Ok(Some(reset_route(alloc, uid, token)?)),
        None => Ok(None),
    }
}

#[tactic(auto, unfolding(crate::specs::Route::plain_route))]
fn plain_route(name: &str) -> Option<Route>
    ensures { result ≡ plain_route name.now }
{
    match name {
        "/whoami" => Some(Route::Whoami),
        "/login" => Some(Route::Login),
        "/logout" => Some(Route::Logout),
        "/session" => Some(Route::Session),
        "/perms" => Some(Route::Perms),
        "/password_change" => Some(Route::PasswordChange),
        "/password_reset" => Some(Route::PasswordReset),
        _ => None,
    }
}

// The id and the token of a reset link, whose path is `/reset/`, the id, a slash and the token.
#[tactic(auto, unfolding(crate::specs::Route::link_parts))]
fn link_parts(name: &str) -> Option<(&str, &str)>
    ensures some { IfSome result (λ parts. link_parts name.now ≡ Some (parts.0.now, parts.1.now)) }
    ensures none { IfNone result (link_parts name.now ≡ None) }
{
    let (front, rest) = cut_at_slash(name);
    let (first, rest) = cut_at_slash(rest);
    if !front.is_empty() || first != "reset" {
        return None;
    }
    let (uid, token) = cut_at_slash(rest);
    if uid.is_empty() || token.is_empty() || has_slash(token) {
        return None;
    }
    Some((uid, token))
}

// What stands before the first slash and after it; all and nothing where there is none.
fn cut_at_slash(text: &str) -> (&str, &str)
    ensures front { result.0.now ≡ before_first is_slash text.now }
    ensures back { result.1.now ≡ after_first is_slash text.now }
{
    match cut_at_first(text, '/') {
        Some(parts) => parts,
        None => (text, ""),
    }
}

fn has_slash(text: &str) -> bool
    ensures { result ≡ list_any is_slash text.now }
{
    text.bytes().any(|byte| byte == b'/')
}

#[tactic(auto, unfolding(crate::specs::Route::reset_route))]
fn reset_route(alloc: Global, uid: &str, token: &str) -> Result<Route, AllocError>
    ensures { IfOk result (λ route. route ≡ reset_route (uid.now, token.now)) }
{
    let uid = Text::of(alloc, uid)?;
    if token == "set-password" {
        return Ok(Route::ResetSet { uid });
    }
    let token = Text::of(alloc, token)?;
    Ok(Route::ResetLink { uid, token })
}

/// The methods that a route takes.
pub fn methods_of(route: &Route) -> Methods
    ensures { result ≡ methods_of route.now }
{
    match route {
        Route::Whoami | Route::Perms | Route::ResetLink { .. } => Methods::Safe,
        Route::Logout => Methods::Form,
        Route::Login
        | Route::Session
        | Route::PasswordChange
        | Route::PasswordReset
        | Route::ResetSet { .. } => Methods::SafeAndForm,
    }
}

/// Whether a method is one of them.
pub fn takes(methods: Methods, method: Method) -> bool
    ensures { result ≡ takes methods method }
{
    match methods {
        Methods::Safe => reads(method),
        Methods::Form => sends(method),
        Methods::SafeAndForm => reads(method) || sends(method),
    }
}

/// Their list, as an `Allow` field has it (RFC 9110, section 10.2.1).
pub fn allow_text(methods: Methods) -> &'static str
    ensures { result.now ≡ allow_text methods }
{
    match methods {
        Methods::Safe => "GET, HEAD",
        Methods::Form => "POST",
        Methods::SafeAndForm => "GET, HEAD, POST",
    }
}

/// Whether the method only reads a page.
pub fn reads(method: Method) -> bool
    ensures { result ≡ reads method }
{
    match method {
        Method::Get | Method::Head => true,
        Method::Post | Method::Other => false,
    }
}

/// Whether the method sends a form.
pub fn sends(method: Method) -> bool
    ensures { result ≡ sends method }
{
    match method {
        Method::Post => true,
        Method::Get | Method::Head | Method::Other => false,
    }
}
