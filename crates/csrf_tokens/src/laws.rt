//! Laws about the definitions of this crate. A law is a function that does nothing: its clause is
//! the law, so the check of the crate proves it.

ghost use Rattle.csrf_tokens.specs.Laws.{HostsAreWellFormed, MaskGivesOneToken, MaskedReadsBack, MaskedTokenMatches, TokenHasOneSecret, UrlsAreWellFormed};

/// A token carries one secret.
pub fn token_has_one_secret()
    ensures { TokenHasOneSecret }
{}

/// `mask` gives the one token that begins with the mask and carries the secret.
pub fn mask_gives_one_token()
    ensures { MaskGivesOneToken }
{}

/// `unmask` and `secret_of` give back the secret that `mask` took.
pub fn masked_reads_back()
    ensures { MaskedReadsBack }
{}

/// `matches` and `check` accept what `mask` makes of the cookie's secret.
pub fn masked_token_matches()
    ensures { MaskedTokenMatches }
{}

/// `split_host` reads the hosts of Django's pattern and no others.
pub fn hosts_are_well_formed()
    ensures { HostsAreWellFormed }
{}

/// `url_parts` reads the URLs with a scheme and a network location and no others.
pub fn urls_are_well_formed()
    ensures { UrlsAreWellFormed }
{}
