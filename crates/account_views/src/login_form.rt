//! The fields of a login's form.

ghost use Rattle.std.specs.Prelude.{◌≡◌};
ghost use Rattle.std.specs.Char.{is_ascii_graphic};
ghost use Rattle.std.specs.List.{list_all};
ghost use Rattle.account_views.specs.LoginForm.{is_next, is_rooted, is_user_name, target_of};

const MOST_BYTES: usize = 2000;

/// Whether a user can have the name.
pub fn is_user_name(name: &str) -> bool
    ensures { result ≡ is_user_name name.now }
{
    ledger_rows::is_user_name(name)
}

/// Where a login leads, by what its form says. It is a path of this site, so that no link to the login can send a user
/// to another one.
pub fn target_of(next: &str) -> &str
    ensures { result.now ≡ target_of next.now }
{
    if is_next(next) { next } else { "/whoami/" }
}

#[tactic(auto, unfolding(crate::specs::LoginForm::is_next))]
fn is_next(next: &str) -> bool
    ensures { result ≡ is_next next.now }
{
    next.len() <= MOST_BYTES && are_graphic(next.as_bytes()) && is_rooted(next.as_bytes())
}

fn are_graphic(bytes: &[u8]) -> bool
    ensures { result ≡ list_all is_ascii_graphic bytes.now }
{
    bytes.iter().all(|byte| byte.is_ascii_graphic())
}

fn is_rooted(bytes: &[u8]) -> bool
    ensures { result ≡ is_rooted bytes.now }
{
    match bytes {
        [first, second, ..] => *first == b'/' && *second != b'/' && *second != b'\\',
        [first] => *first == b'/',
        [] => false,
    }
}
