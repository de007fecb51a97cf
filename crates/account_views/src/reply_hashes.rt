//! The hashes in replies.

ghost use Rattle.std.specs.Prelude.{IsUtf8};
ghost use Rattle.account_views.specs.Walk.{HasTextHash, IsTextRead};

use crypto_text::Text;
use ledger_rows::{Reply, UserRead};

/// The hashes that a reply gives out are text, since each is a `Text`. Takes no memory.
pub fn hash_is_text(reply: &Reply)
    ensures { HasTextHash reply.now }
{
    match reply {
        Reply::Loaded { user, .. } => read_is_text(user),
        Reply::User { read } => read_is_text(read),
        Reply::Good { read } => is_text(&read.auth_hash),
        Reply::Written { auth_hash } => is_text(auth_hash),
        _ => {}
    }
}

fn read_is_text(read: &Option<UserRead>)
    ensures { IsTextRead read.now }
{
    if let Some(read) = read {
        is_text(&read.auth_hash);
    }
}

fn is_text(text: &Text)
    ensures { IsUtf8 text.now }
{
    let _text = text.as_str();
}
