//! White space around texts.

ghost use Rattle.std.specs.Prelude.{◌≡◌};
ghost use Rattle.crypto_text.specs.WhiteSpace.{trimmed};

/// A text without the ASCII white space at its ends.
pub fn trimmed(text: &str) -> &str
    ensures { result.now ≡ trimmed text.now }
{
    text.trim_ascii()
}
