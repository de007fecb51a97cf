//! What a request's route goes on with.

ghost use Rattle.std.specs.Prelude.{◌≡◌, IfOk, false};
ghost use Rattle.middleware_chain.specs.Context.{context_of};
ghost use Rattle.middleware_chain.specs.FieldLimit.{has_too_many_fields};
ghost use Rattle.middleware_chain.specs.Fields.{body_fields};

use crate::fields::query_fields;
use crate::request_cookie::{csrf_secret, session_cookie};
use crate::route::{Route, sends};
use crate::secret::Secret;
use crypto_text::Text;
use http_edge::{Field, Request};
use ledger_rows::RowList;
use std::alloc::{AllocError, Global};

/// What a request's route goes on with. It has no `Debug`, so that neither a secret nor a token is printed.
#[derive(Drop)]
pub struct Context {
    pub route: Route,
    /// Whether the method is POST.
    pub post: bool,
    /// The fields of the body, where it is a form.
    pub fields: RowList<Field>,
    /// The fields of the query.
    pub query: RowList<Field>,
    /// The session cookie.
    pub session: Option<Text>,
    /// The secret of the CSRF cookie, where that is in form.
    pub secret: Option<Secret>,
}

/// What a request of this route goes on with, with the fields of its body.
#[tactic(auto, unfolding(crate::specs::Context::context_of))]
pub fn context_of(
    alloc: Global,
    route: Route,
    request: &Request,
    fields: RowList<Field>,
) -> Result<Context, AllocError>
    requires few { has_too_many_fields request.now ≡ false }
    requires fields { fields ≡ body_fields request.now }
    ensures { IfOk result (λ context. context ≡ context_of route request.now) }
{
    Ok(Context {
        route,
        post: sends(request.method),
        fields,
        query: query_fields(alloc, request)?,
        session: session_cookie(alloc, request)?,
        secret: csrf_secret(request),
    })
}
