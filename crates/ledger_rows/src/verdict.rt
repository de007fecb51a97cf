//! Who a session cookie speaks for.

/// What a load of a session found, the first that holds.
#[derive(Clone, Copy, Debug, PartialEq, Eq)]
pub enum Verdict {
    /// No cookie came, or one of fewer than 8 bytes, which no session key has.
    NoCookie,
    /// No session of that key is stored, or it has expired.
    NotStored,
    /// What is stored can't be read under a present key.
    Corrupt,
    /// The session has no login.
    NoAuth,
    /// The login's backend isn't configured.
    BadBackend,
    /// The user is gone.
    NoUser,
    /// The backend admits active users alone, and the user isn't active.
    Inactive,
    /// The login's hash isn't made from the present password text under a present key.
    BadHash,
    /// The user is asking; the hash is that of the key at this place.
    Admitted { key_index: usize },
}
