//! `/logout/`: the end of one's own session.

ghost use Rattle.std.specs.Prelude.{◌≡◌, IfOk};
ghost use Rattle.account_views.specs.Logout.{logout};

use crate::page::{Viewed, redirect_page};
use auth_backends::{SessionBox, logout_change};
use crypto_text::Text;
use std::alloc::{AllocError, Global};

/// Logs out whoever is logged in, and leads to the form of a login. It is there for POST alone.
pub fn logout(alloc: Global, mut session: SessionBox) -> Result<Viewed, AllocError>
    ensures { IfOk result (λ viewed. viewed ≡ logout session) }
{
    let target = Text::of(alloc, "/login/")?;
    logout_change(&mut session);
    let page = redirect_page(alloc, target, None);
    Ok(Viewed { page, session })
}
