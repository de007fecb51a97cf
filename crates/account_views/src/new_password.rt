//! Two new passwords, and why they aren't taken.

ghost use Rattle.std.specs.Prelude.{◌≡◌, IfOk};
ghost use Rattle.account_views.specs.NewPassword.{fault_line, new_password_fault, weakness};

use crypto_text::TextList;
use pass_hashers::{Weak, validate};
use std::alloc::{AllocError, Global};

/// Why two new passwords aren't taken.
#[derive(Clone, Copy)]
pub enum Fault {
    /// The two differ.
    Mismatch,
    TooShort,
    AllDigits,
    Common,
}

/// Why two new passwords aren't taken, where they aren't. The list of common passwords is in lower case.
#[tactic(auto, unfolding(crate::specs::NewPassword::new_password_fault))]
pub fn fault_of(
    alloc: Global,
    first: &str,
    second: &str,
    common: &TextList,
) -> Result<Option<Fault>, AllocError>
    ensures { IfOk result (λ fault. fault ≡ new_password_fault first.now second.now common.now) }
{
    if first == second {
        weakness(alloc, first, common)
    } else {
        Ok(Some(Fault::Mismatch))
    }
}

/// The line of a form's page that names a fault.
pub fn fault_line(fault: Fault) -> &'static str
    ensures { result.now ≡ fault_line fault }
{
    match fault {
        Fault::Mismatch => "error=mismatch\n",
        Fault::TooShort => "error=too-short\n",
        Fault::AllDigits => "error=all-digits\n",
        Fault::Common => "error=common\n",
    }
}

fn weakness(alloc: Global, password: &str, common: &TextList) -> Result<Option<Fault>, AllocError>
    ensures { IfOk result (λ fault. fault ≡ weakness password.now common.now) }
{
    match validate(alloc, password, common) {
        Ok(()) => Ok(None),
        Err(Weak::TooShort) => Ok(Some(Fault::TooShort)),
        Err(Weak::AllDigits) => Ok(Some(Fault::AllDigits)),
        Err(Weak::Common) => Ok(Some(Fault::Common)),
        Err(Weak::Memory) => Err(AllocError),
    }
}
