//! Who a password lets in.

ghost use Rattle.std.specs.Prelude.{◌≡◌, ◌↔◌};
ghost use Rattle.std.specs.Option.{option_copied};
ghost use Rattle.ledger_rows.specs.Admission.{admits};
ghost use Rattle.auth_backends.specs.Authentication.{IsAnswer, IsPasswordAnswer, admitting_backend, answer_of};

use ledger_rows::{Backend, Cfg, UserRow};
use pass_hashers::{must_update, verify};

/// What a login is answered.
#[derive(Clone, Copy, Debug, PartialEq, Eq)]
pub enum AuthAnswer {
    /// The password fits.
    Yes {
        /// The backend that lets the user in.
        backend: Backend,
        /// Whether the password text is to be made anew, by the preferred hasher.
        upgrade: bool,
    },
    /// A backend would let the user in, but the password doesn't fit.
    WrongPassword,
    /// There is no such user, or no backend lets the user in.
    Refused,
}

/// Whether the user whose row was found comes in with this password, as Django's `authenticate` over
/// `ModelBackend` and `AllowAllUsersModelBackend`. Takes no memory. Where it refuses it hashes nothing, so its
/// time differs from that of a wrong password.
pub fn authenticate(row: Option<&UserRow>, password: &str, cfg: &Cfg) -> AuthAnswer
    ensures is { (answer : AuthAnswer) → (result ≡ answer) ↔ IsAnswer (option_copied row.entry) password.now cfg.now answer }
    ensures value { result ≡ answer_of (option_copied row.entry) password.now cfg.now }
{
    answer_to(row, password, cfg)
}

fn answer_to(row: Option<&UserRow>, password: &str, cfg: &Cfg) -> AuthAnswer
    ensures { IsAnswer (option_copied row.entry) password.now cfg.now result }
{
    match row {
        Some(user) => match admitting_backend(cfg.backends.items(), user) {
            Some(backend) => password_answer(user, backend, password, cfg),
            None => AuthAnswer::Refused,
        },
        None => AuthAnswer::Refused,
    }
}

fn password_answer(user: &UserRow, backend: Backend, password: &str, cfg: &Cfg) -> AuthAnswer
    ensures { IsPasswordAnswer user.now backend password.now cfg.now result }
{
    let text = user.password.as_str();
    if verify(password, text, cfg.installed.items()) {
        let upgrade = must_update(text, cfg.preferred);
        AuthAnswer::Yes { backend, upgrade }
    } else {
        AuthAnswer::WrongPassword
    }
}

fn admitting_backend(backends: &[Backend], user: &UserRow) -> Option<Backend>
    ensures { result ≡ admitting_backend backends.now user.now }
{
    for backend in backends {
        if admits(*backend, user) {
            return Some(*backend);
        }
    }
    None
}

fn admits(backend: Backend, user: &UserRow) -> bool
    ensures { result ≡ admits backend user.now }
{
    match backend {
        Backend::Model => user.active,
        Backend::AllowAll => true,
    }
}
