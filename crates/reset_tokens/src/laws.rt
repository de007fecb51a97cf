//! Laws about the definitions of this crate. A law is a function that does nothing: its clause is
//! the law, so the check of the crate proves it.

ghost use Rattle.reset_tokens.specs.Laws.{MadeTokenIsValid, ResetTextTells, UidReadsBack, VerdictIsExact};

/// At one number of at least eight digits, no two rows have the same reset text.
pub fn reset_text_tells()
    ensures { ResetTextTells }
{}

/// A token is valid while its key is listed, its row stays and its age is allowed.
pub fn made_token_is_valid()
    ensures { MadeTokenIsValid }
{}

/// A verdict, which is computed, says the same of a token as the relations: each kind both ways.
pub fn verdict_is_exact()
    ensures { VerdictIsExact }
{}

/// The text of an id is read as that id and as no other.
pub fn uid_reads_back()
    ensures { UidReadsBack }
{}
