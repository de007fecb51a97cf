//! What a site's requests are answered by.

use crypto_text::TextList;
use csrf_tokens::Trusted;
use ledger_rows::{Cfg, RowList};

/// A site's settings.
#[derive(Drop)]
pub struct Settings {
    pub cfg: Cfg,
    /// The hosts that the site answers to, as Django's `ALLOWED_HOSTS`.
    pub allowed: TextList,
    /// The origins beside its own from which the site takes forms, as Django's `CSRF_TRUSTED_ORIGINS`.
    pub trusted: RowList<Trusted>,
    /// Whether `X-Forwarded-Proto: https` makes a request secure: a proxy before the site says so of each request.
    pub proxy_secure: bool,
    /// Whether the site's cookies are sent by HTTPS alone.
    pub cookie_secure: bool,
    /// Passwords that are too common, in lower case.
    pub common: TextList,
}
