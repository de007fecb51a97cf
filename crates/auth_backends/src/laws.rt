//! Laws about the definitions of this crate. A law is a function that does nothing: its clause is
//! the law, so the check of the crate proves it.

ghost use Rattle.auth_backends.specs.Laws.{AnswerIsOne, AnswerOfIsAnswer, EarnedIsYes, InactiveIsRefused, LoginChangesKey, LoginIsRead, LoginKeepsOwnEntries, LogoutLeavesNothing, RefusedIsExact, RehashKeepsLogin, WrongPasswordIsExact, YesIsEarned};

/// There is only one answer to a row and a password under a site's settings.
pub fn answer_is_one()
    ensures { AnswerIsOne }
{}

/// There always is an answer, and it is a stated function of row, password and settings.
pub fn answer_of_is_answer()
    ensures { AnswerOfIsAnswer }
{}

/// A user gets in only by a configured backend that admits the user, with the right password.
pub fn yes_is_earned()
    ensures { YesIsEarned }
{}

/// A user whom a configured backend admits gets in with the right password.
pub fn earned_is_yes()
    ensures { EarnedIsYes }
{}

/// A password is called wrong only to a user whom a configured backend admits.
pub fn wrong_password_is_exact()
    ensures { WrongPasswordIsExact }
{}

/// A login is refused where no configured backend admits the user, and nowhere else.
pub fn refused_is_exact()
    ensures { RefusedIsExact }
{}

/// Where `ModelBackend` is the only backend, an inactive user is refused.
pub fn inactive_is_refused()
    ensures { InactiveIsRefused }
{}

/// The login of a session is read back as it was written.
pub fn login_is_read()
    ensures { LoginIsRead }
{}

/// A login keeps the session's other entries where nobody was logged in, or this user with this hash, and
/// nowhere else.
pub fn login_keeps_own_entries()
    ensures { LoginKeepsOwnEntries }
{}

/// Where the user wasn't logged in already, a login asks for a new key or has the old one deleted, against
/// session fixation.
pub fn login_changes_key()
    ensures { LoginChangesKey }
{}

/// A logout leaves neither a login nor any other entry.
pub fn logout_leaves_nothing()
    ensures { LogoutLeavesNothing }
{}

/// A new hash leaves the same user logged in, by the same backend.
pub fn rehash_keeps_login()
    ensures { RehashKeepsLogin }
{}
