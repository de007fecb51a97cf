//! What the view of a route is called with.

ghost use Rattle.std.specs.Prelude.{◌≡◌};
ghost use Rattle.account_views.specs.Handler.{call_of};

use crypto_text::Text;
use http_edge::Field;
use ledger_rows::RowList;
use middleware_chain::{Context, Route, Secret};

/// What a request shows to the view of its route. It has no `Debug`, so that neither a secret nor a token is printed.
#[derive(Drop)]
pub struct Call {
    pub route: Route,
    /// Whether the method is POST.
    pub post: bool,
    /// The fields of the body, where it is a form.
    pub fields: RowList<Field>,
    /// The fields of the query.
    pub query: RowList<Field>,
    /// The secret of the CSRF cookie, where that is in form.
    pub secret: Option<Secret>,
}

/// The session cookie, and the rest of a request.
pub fn call_of(context: Context) -> (Option<Text>, Call)
    ensures session { result.0 ≡ context.session }
    ensures call { result.1 ≡ call_of context }
{
    let Context {
        route,
        post,
        fields,
        query,
        session,
        secret,
    } = context;
    let call = Call {
        route,
        post,
        fields,
        query,
        secret,
    };
    (session, call)
}
