//! Where a path without its last slash is redirected to.

ghost use Rattle.std.specs.Prelude.{◌≡◌, IfOk};
ghost use Rattle.middleware_chain.specs.SlashTarget.{slash_target};

use crypto_text::Text;
use http_edge::Request;
use std::alloc::{AllocError, Global};

/// The path with its last slash, and the query.
pub fn slash_target(alloc: Global, request: &Request) -> Result<Text, AllocError>
    ensures { IfOk result (λ text. text ≡ slash_target request.now) }
{
    let mut text = String::from_str(alloc, request.path.as_str())?;
    text.push_str("/")?;
    if request.has_query {
        text.push_str("?")?;
        text.push_str(request.query.as_str())?;
    }
    Ok(Text::from_string(text))
}
