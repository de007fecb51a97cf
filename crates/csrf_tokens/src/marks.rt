//! Texts that begin or end with a mark, which is an ASCII character.

ghost use Rattle.std.specs.Prelude.{◌≡◌, ◌==◌, ◌+◌, ◌<◌, drop, take};
ghost use Rattle.std.specs.List.{before_first, position_or_len};
ghost use Rattle.std.specs.Option.{option_copied};
ghost use Rattle.csrf_tokens.specs.Marks.{after_mark, before_mark};

use crypto_text::cut_at_first;

/// What follows the mark, where the text begins with it.
pub fn after_mark(text: &str, mark: char) -> Option<&str>
    requires { mark < 128 }
    ensures { option_copied result ≡ after_mark mark text.now }
{
    text.strip_prefix(mark)
}

/// What comes before the mark, where the text ends with it.
pub fn before_mark(text: &str, mark: char) -> Option<&str>
    requires { mark < 128 }
    ensures { option_copied result ≡ before_mark mark text.now }
{
    text.strip_suffix(mark)
}

/// What comes before the first mark, or all where there is none.
pub fn up_to(text: &str, mark: char) -> &str
    requires { mark < 128 }
    ensures { result.now ≡ before_first (λ byte. byte == mark) text.now }
{
    match cut_at_first(text, mark) {
        Some((front, _)) => front,
        None => text,
    }
}

/// What comes before the first mark, and the rest with the mark.
pub fn cut_before(text: &str, mark: char) -> (&str, &str)
    requires { mark < 128 }
    ensures front { result.0.now ≡ take (position_or_len (λ byte. byte == mark) text.now) text.now }
    ensures rest { result.1.now ≡ drop (position_or_len (λ byte. byte == mark) text.now) text.now }
{
    match cut_at_first(text, mark) {
        Some((front, _)) => text.split_at(front.len()),
        None => (text, ""),
    }
}

/// All up to the first mark and with it, and the rest.
pub fn cut_after(text: &str, mark: char) -> (&str, &str)
    requires { mark < 128 }
    ensures front { result.0.now ≡ take (position_or_len (λ byte. byte == mark) text.now + 1) text.now }
    ensures rest { result.1.now ≡ drop (position_or_len (λ byte. byte == mark) text.now + 1) text.now }
{
    match cut_at_first(text, mark) {
        Some((front, _)) => text.split_at(front.len() + 1),
        None => (text, ""),
    }
}
