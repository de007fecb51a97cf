//! The session that a request holds.

ghost use Rattle.std.specs.Prelude.{◌≡◌};
ghost use Rattle.auth_backends.specs.SessionBox.{flushed};

use crypto_text::Text;
use session_codec::SessionMap;

/// The session of one request, and what is to be written of it once the request is answered. It has no
/// `Debug`, so that no session is printed.
#[derive(Drop)]
pub struct SessionBox {
    /// Whether a session cookie came with the request.
    pub came: bool,
    /// The key under which the session is stored; a session without one is new.
    pub key: Option<Text>,
    pub map: SessionMap,
    /// The key of a stored session that is to be deleted.
    pub dropped: Option<Text>,
    /// Whether the session is to be stored under a new key, as Django's `cycle_key`.
    pub cycle: bool,
    /// Whether the session was read, so that the response depends on the cookie.
    pub accessed: bool,
    /// Whether the session was changed, so that it is to be written.
    pub modified: bool,
}

impl SessionBox {
    /// Ends the session and begins a new one without entries, as Django's `flush`. Takes no memory.
    pub fn flush(&mut self)
        ensures { self.new ≡ flushed self.old }
    {
        if let Some(key) = self.key.take() {
            self.dropped = Some(key);
        }
        self.map.clear();
        self.modified = true;
    }
}
