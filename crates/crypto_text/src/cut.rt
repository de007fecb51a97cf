//! Texts that are cut in two at a mark.

ghost use Rattle.std.specs.Prelude.{◌≡◌, ◌<◌, ◌==◌, Contains, IfNone, IfSome, MatchOption, length};
ghost use Rattle.std.specs.List.{after_first, before_first, position_or_len};
ghost use Rattle.crypto_text.specs.Cut.{IsCutAtFirst, IsCutAtLast};

/// The parts before and after the first mark, which is an ASCII character.
pub fn cut_at_first(text: &str, mark: char) -> Option<(&str, &str)>
    requires { mark < 128 }
    ensures cut { MatchOption result (¬ Contains text.now mark) (λ parts. IsCutAtFirst mark text.now parts.0.now parts.1.now) }
    ensures front { IfSome result (λ parts. parts.0.now ≡ before_first (λ byte. byte == mark) text.now) }
    ensures back { IfSome result (λ parts. parts.1.now ≡ after_first (λ byte. byte == mark) text.now) }
    ensures whole { IfNone result (position_or_len (λ byte. byte == mark) text.now ≡ length text.now) }
{
    text.split_once(mark)
}

/// The parts before and after the last mark, which is an ASCII character.
pub fn cut_at_last(text: &str, mark: char) -> Option<(&str, &str)>
    requires { mark < 128 }
    ensures { MatchOption result (¬ Contains text.now mark) (λ parts. IsCutAtLast mark text.now parts.0.now parts.1.now) }
{
    text.rsplit_once(mark)
}
