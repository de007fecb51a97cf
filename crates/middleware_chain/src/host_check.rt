//! Whether a site answers to a host.

ghost use Rattle.std.specs.Prelude.{◌≡◌, option_copied};
ghost use Rattle.middleware_chain.specs.HostCheck.{is_allowed};

use crypto_text::{Text, TextList};
use csrf_tokens::host_allowed;

/// Whether a request's host is one of the site's.
pub fn is_allowed(hosts: &TextList, host: Option<&Text>) -> bool
    ensures { result ≡ is_allowed hosts.now (option_copied host.entry) }
{
    match host {
        Some(host) => host_allowed(host.as_str(), hosts),
        None => false,
    }
}
