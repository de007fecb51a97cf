//! Laws about the definitions of this crate. A law is a function that does nothing: its clause is
//! the law, so the check of the crate proves it.

ghost use Rattle.signing_core.specs.Laws.{BytesAreEncoded, CookieWhileListed, DumpedTextTellsValue, DumpedWhileListed, SignedTextTellsValue, SignedValueIsTimestamped, SignedWhileListed, TimestampedTextTellsValue, TimestampedWhileListed};

/// A signature has no colon, so a signed text is the text of one value.
pub fn signed_text_tells_value()
    ensures { SignedTextTellsValue }
{}

/// A signed text with a time has one value and one moment.
pub fn timestamped_text_tells_value()
    ensures { TimestampedTextTellsValue }
{}

/// What `sign` writes, `unsign` reads as the same value while the key is listed.
pub fn signed_while_listed()
    ensures { SignedWhileListed }
{}

/// What `sign_timed` writes, `unsign_timed` reads as the same value and moment while the key is
/// listed.
pub fn timestamped_while_listed()
    ensures { TimestampedWhileListed }
{}

/// A dumped text has one value and one moment.
pub fn dumped_text_tells_value()
    ensures { DumpedTextTellsValue }
{}

/// What `dumps` writes, `loads` reads as the same value while the key is listed.
pub fn dumped_while_listed()
    ensures { DumpedWhileListed }
{}

/// What `sign_cookie` writes, `unsign_cookie` reads as the same value while the key is listed and
/// the age allowed.
pub fn cookie_while_listed()
    ensures { CookieWhileListed }
{}

/// `Decoding.signed_value` takes a text apart as `unsign_timed` does under an empty prefix.
pub fn signed_value_is_timestamped()
    ensures { SignedValueIsTimestamped }
{}

/// `Decoding.bytes_of` reads base64url as `loads` does.
pub fn bytes_are_encoded()
    ensures { BytesAreEncoded }
{}
