//! Reading what was signed with the time, where the time itself isn't wanted.

ghost use Rattle.std.specs.Prelude.{◌≡◌, ◌↔◌, ℕ, List, IsErrOf, IsOkAnd};
ghost use Rattle.signing_core.specs.TimedText.{HasTimedFault, IsCurrent};

use crate::keys::Keys;
use crate::signer::{Signer, TimedFault};

/// The value of a text that was signed with a time. Its age at `now` must not be above `max_age`, where
/// there is one; all are in seconds. Refusals come in the order of the enum. Takes no memory.
pub fn current_value<'t>(
    keys: &Keys,
    prefix: &str,
    salt: &str,
    text: &'t str,
    now: u64,
    max_age: Option<u64>,
) -> Result<&'t str, TimedFault>
    ensures value { (value : List ℕ) → IsOkAnd result (λ answer. answer.now ≡ value)
        ↔ IsCurrent text.now value prefix.now salt.now keys.now now max_age }
    ensures faults { (fault : TimedFault) → IsErrOf result fault
        ↔ HasTimedFault text.now prefix.now salt.now keys.now now max_age fault }
{
    let signer = Signer::new(keys, prefix, salt);
    match signer.unsign_timed(text, now, max_age) {
        Ok((value, _)) => Ok(value),
        Err(fault) => Err(fault),
    }
}
