//! Laws about password texts. A law is a function that does nothing: its clause is the law, so the
//! check of the crate proves it.

ghost use Rattle.pass_hashers.specs.Laws.{MadeTextVerifies, PartsAreUnique, RandomLettersAreSalt, TextBeginsWithNoDigit, TextShowsItsEnd};

/// A text has one hasher, one salt and one digest.
pub fn parts_are_unique()
    ensures { PartsAreUnique }
{}

/// The password that a text was made of fits it, where its algorithm is installed.
pub fn made_text_verifies()
    ensures { MadeTextVerifies }
{}

/// A password text shows its own end: no two begin the same longer text.
pub fn text_shows_its_end()
    ensures { TextShowsItsEnd }
{}

/// A password text can stand behind a number.
pub fn text_begins_with_no_digit()
    ensures { TextBeginsWithNoDigit }
{}

/// A salt may be made of random words, as Django's `BasePasswordHasher.salt` is.
pub fn random_letters_are_salt()
    ensures { RandomLettersAreSalt }
{}
