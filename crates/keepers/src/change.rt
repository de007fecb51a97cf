//! What a step changes in the tables.

ghost use Rattle.std.specs.Prelude.{◌≡◌, IfOk};

use crypto_text::Text;
use ledger_rows::{MailRow, SessionRow, UserRow};
use signing_core::Keys;
use std::alloc::{AllocError, Global};

/// One change of the tables. Moments are in seconds since 1970.
#[derive(Drop)]
pub enum Change {
    /// A session joins the others, or takes the place of the one of its key.
    PutSession(SessionRow),
    /// The session of a key is removed, where there is one.
    DropSession(Text),
    /// The sessions that were over before a moment are removed.
    DropExpired(u64),
    /// A user joins the others, or takes the place of the one of its id. The next id is above its own.
    PutUser(UserRow),
    /// A mail joins the others, or takes the place of the one of its id. The next id is above its own.
    PutMail(MailRow),
    /// The mail of an id is removed, where there is one.
    DropMail(u64),
    /// All signing keys.
    PutKeys(Keys),
    /// How many starts there were.
    PutBoot(u64),
}

impl Change {
    /// The same change once more.
    pub fn copy(&self, alloc: Global) -> Result<Change, AllocError>
        ensures { IfOk result (λ change. change ≡ self.now) }
    {
        match self {
            Change::PutSession(row) => Ok(Change::PutSession(row.copy(alloc)?)),
            Change::DropSession(key) => Ok(Change::DropSession(key.copy(alloc)?)),
            Change::DropExpired(now) => Ok(Change::DropExpired(*now)),
            Change::PutUser(row) => Ok(Change::PutUser(row.copy(alloc)?)),
            Change::PutMail(row) => Ok(Change::PutMail(row.copy(alloc)?)),
            Change::DropMail(id) => Ok(Change::DropMail(*id)),
            Change::PutKeys(keys) => Ok(Change::PutKeys(keys.copy(alloc)?)),
            Change::PutBoot(boot) => Ok(Change::PutBoot(*boot)),
        }
    }
}
