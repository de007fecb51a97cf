//! Cookies as Django reads and sets them: the value of a name in a `Cookie` header (`cookie_value`),
//! all its pairs (`parse_cookies`, then `find`), and the text of a `Set-Cookie` header
//! (`set_cookie_text`, `delete_cookie_text`). The pairs are `CookieHeader.pairs_of` of the header, and
//! the texts `SetCookie.text_of`.
#![tactic(auto)]

mod cookie_header;
mod set_cookie;
#[cfg(test)]
mod tests;

pub use crate::cookie_header::{Cookie, cookie_value, find, parse_cookies};
pub use crate::set_cookie::{CookieOut, delete_cookie_text, set_cookie_text};
