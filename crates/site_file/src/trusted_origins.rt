//! The origins that a settings file trusts.

ghost use Rattle.std.specs.Prelude.{◌≡◌, ◌<◌, List, IfOk, IsErrOf, None, Some, option_copied, option_map};
ghost use Rattle.serde_json.specs.View.{view};
ghost use Rattle.csrf_tokens.specs.Marks.{after_mark};
ghost use Rattle.csrf_tokens.specs.declared.verdict.Trusted.{Trusted};
ghost use Rattle.site_file.specs.SiteFile.{AreOriginsOf};
ghost use Rattle.site_file.specs.TrustedOrigins.{after_star, trusted_in, trusted_value};

use crate::fields::{FieldFault, FromValue, list_or_empty};
use crypto_text::Text;
use csrf_tokens::{Trusted, is_origin, url_parts};
use ledger_rows::RowList;
use serde_json::Value;
use std::alloc::Global;

impl FromValue for Trusted {
    ghost value_in = { trusted_value };

    fn from_value(alloc: Global, value: &Value) -> Result<Trusted, FieldFault> {
        match value.as_str() {
            Some(text) => trusted_in(alloc, text),
            None => Err(FieldFault::Form),
        }
    }
}

/// The origins that the site trusts.
pub(crate) fn origins_of(
    alloc: Global,
    value: Option<&Value>,
) -> Result<RowList<Trusted>, FieldFault>
    ensures ok { IfOk result (AreOriginsOf (option_map (λ v. view v.now) value.entry)) }
    ensures form { IsErrOf result FieldFault.Form → (trusted : List Trusted) → ¬ AreOriginsOf (option_map (λ v. view v.now) value.entry) trusted }
{
    Ok(RowList::from_vec(list_or_empty(alloc, value)?))
}

#[tactic(auto, unfolding(crate::specs::TrustedOrigins::trusted_in))]
fn trusted_in(alloc: Global, text: &str) -> Result<Trusted, FieldFault>
    ensures ok { IfOk result (λ entry. trusted_in text.now ≡ Some entry) }
    ensures form { IsErrOf result FieldFault.Form → trusted_in text.now ≡ None }
{
    let Some(url) = url_parts(text) else {
        return Err(FieldFault::Form);
    };
    if !is_origin(text, url.scheme, url.netloc) {
        return Err(FieldFault::Form);
    }
    let scheme = Text::of(alloc, url.scheme)?;
    match after_star(url.netloc) {
        Some(rest) => {
            let netloc = Text::of(alloc, rest)?;
            Ok(Trusted {
                scheme,
                netloc,
                wild: true,
            })
        }
        None => {
            let netloc = Text::of(alloc, url.netloc)?;
            Ok(Trusted {
                scheme,
                netloc,
                wild: false,
            })
        }
    }
}

#[tactic(auto, unfolding(crate::specs::TrustedOrigins::after_star))]
fn after_star(netloc: &str) -> Option<&str>
    ensures { option_copied result ≡ after_star netloc.now }
{
    match after_mark(netloc, '*') {
        Some(rest) if after_mark(rest, '.').is_some() => Some(rest),
        _ => None,
    }
}

fn after_mark(text: &str, mark: char) -> Option<&str>
    requires { mark < 128 }
    ensures { option_copied result ≡ after_mark mark text.now }
{
    text.strip_prefix(mark)
}
