//! Protection against forged requests, as Django's `CsrfViewMiddleware`. A client keeps one secret of 32
//! letters, and each page that it is sent carries the secret under a new mask (`mask`), so that no two
//! pages show the same text. `check` gives the verdict on a request, `Verdict.csrf_verdict` of what it
//! shows; `host_allowed` says which hosts a site answers to. No call takes memory.
#![tactic(auto)]

mod form;
mod hosts;
pub mod laws;
mod letters;
mod marks;
#[cfg(test)]
mod tests;
mod tokens;
mod urls;
mod verdict;

pub use crate::form::{Form, TokenFault, format_of, matches, secret_of};
pub use crate::hosts::{HostParts, host_allowed, is_same_domain, split_host};
pub use crate::letters::are_letters;
pub use crate::tokens::{mask, unmask};
pub use crate::urls::{UrlParts, url_parts};
pub use crate::verdict::{CsrfReason, CsrfView, Trusted, check, is_origin};
