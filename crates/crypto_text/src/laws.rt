//! Laws about the definitions of this crate. A law is a function that does nothing: its clause is
//! the law, so the check of the crate proves it.

ghost use Rattle.crypto_text.specs.Alphabet.{letters62, session36};
ghost use Rattle.crypto_text.specs.Laws.{
  Base64urlHasLength,
  Base64urlIsPlain,
  Base64urlTellsBytes,
  CutAtFirstTellsParts,
  CutAtLastTellsParts,
  HexHasLength,
  HexTellsBytes,
  NumeralIsShort,
  NumeralTellsNumber,
  RandomTextIsPlain,
};
ghost use Rattle.crypto_text.specs.Numeral.{base36_digits, base62_digits};

/// What the encoders of numbers write, the decoders read back.
pub fn numeral_tells_number()
    ensures base62 { NumeralTellsNumber base62_digits }
    ensures base36 { NumeralTellsNumber base36_digits }
{}

/// Every number of 64 bits has a numeral of at most 11 digits in base 62 and of 13 in base 36.
pub fn numeral_is_short()
    ensures base62 { NumeralIsShort base62_digits 11 }
    ensures base36 { NumeralIsShort base36_digits 13 }
{}

/// No two byte strings are written the same as base64url.
pub fn base64url_tells_bytes()
    ensures { Base64urlTellsBytes }
{}

/// How long base64url is: 32 bytes take 43 characters.
pub fn base64url_has_length()
    ensures { Base64urlHasLength }
{}

/// Only letters, digits, `-` and `_` are in base64url, so no `:` and no `.`.
pub fn base64url_is_plain()
    ensures { Base64urlIsPlain }
{}

/// A text is cut at its first mark in one way, and so at its last.
pub fn cut_tells_parts()
    ensures first { CutAtFirstTellsParts }
    ensures last { CutAtLastTellsParts }
{}

/// No two byte strings are written the same in hexadecimal.
pub fn hex_tells_bytes()
    ensures { HexTellsBytes }
{}

/// How long hexadecimal text is.
pub fn hex_has_length()
    ensures { HexHasLength }
{}

/// Only letters of the alphabet are in a random text.
pub fn random_text_is_plain()
    ensures session36 { RandomTextIsPlain session36 }
    ensures letters62 { RandomTextIsPlain letters62 }
{}
