//! `/whoami/`: who is asking.

ghost use Rattle.std.specs.Prelude.{◌≡◌, IfOk, Some, []};
ghost use Rattle.std.specs.Option.{option_copied};
ghost use Rattle.account_views.specs.Page.{page_response, text_page};
ghost use Rattle.account_views.specs.Whoami.{unchanged_user, user_line, whoami};

use crate::facts::Facts;
use crate::page::{Page, Viewed, page_response, text_page};
use crate::visit::Visit;
use crypto_text::Text;
use http_edge::Response;
use ledger_rows::{Reply, UserRead, Verdict};
use middleware_chain::Settings;
use std::alloc::{AllocError, Global};

/// The page of the route, which needs no step.
pub fn whoami(alloc: Global, visit: Visit) -> Result<Viewed, AllocError>
    ensures { IfOk result (λ viewed. viewed ≡ whoami visit) }
{
    let page = match &visit.user {
        Some(read) => user_page(alloc, read)?,
        None => text_page(alloc, 200, "anonymous\n")?,
    };
    Ok(Viewed {
        page,
        session: visit.session,
    })
}

/// The user of a load after which the session stays as it is stored.
pub fn unchanged_user(reply: &Reply) -> Option<&UserRead>
    ensures { option_copied result ≡ unchanged_user reply.now }
{
    match reply {
        Reply::Loaded {
            verdict: Verdict::Admitted { key_index: 0 },
            key: Some(_),
            user: Some(read),
            ..
        } => Some(read),
        _ => None,
    }
}

/// The response to a user whose session stays as it is stored. Its entries aren't looked at, so that they needn't be
/// read, which would cost a fifth of the request.
pub fn user_response(
    alloc: Global,
    settings: &Settings,
    facts: &Facts,
    read: &UserRead,
) -> Result<Response, AllocError>
    ensures { IfOk result (λ response. response ≡ page_response settings.now facts.now (text_page 200 (user_line (Some read.now))) []) }
{
    let page = user_page(alloc, read)?;
    page_response(alloc, settings, facts, page, None)
}

fn user_page(alloc: Global, read: &UserRead) -> Result<Page, AllocError>
    ensures { IfOk result (λ page. page ≡ text_page 200 (user_line (Some read.now))) }
{
    let mut text = String::from_str(alloc, "user=")?;
    text.push_str(read.row.name.as_str())?;
    text.push_str("\n")?;
    Ok(Page {
        status: 200,
        body: Text::from_string(text),
        location: None,
        secret: None,
    })
}
