//! Whether names, addresses and keys are well formed.

ghost use Rattle.std.specs.Prelude.{◌≡◌, ◌↔◌, IsTrue};
ghost use Rattle.std.specs.Char.{is_ascii_graphic};
ghost use Rattle.std.specs.List.{AllPass};
ghost use Rattle.ledger_rows.specs.Form.{IsEmail, IsPermissionWord, IsSessionKey, IsUserName, is_key_byte, is_name_byte, is_word_byte};

#[cfg(test)]
mod tests;

const LONGEST_USER_NAME: usize = 150;

const LONGEST_EMAIL: usize = 254;

const SESSION_KEY_LENGTH: usize = 32;

/// Whether a text can be a user's name.
pub fn is_user_name(name: &str) -> bool
    ensures { IsTrue result ↔ IsUserName name.now }
{
    !name.is_empty() && name.len() <= LONGEST_USER_NAME && are_name_bytes(name.as_bytes())
}

/// Whether a text can be a user's address; it may be empty.
pub fn is_email(email: &str) -> bool
    ensures { IsTrue result ↔ IsEmail email.now }
{
    email.len() <= LONGEST_EMAIL && are_graphic(email.as_bytes())
}

/// Whether a text can be the key of a session that is made.
pub fn is_session_key(key: &str) -> bool
    ensures { IsTrue result ↔ IsSessionKey key.now }
{
    key.len() == SESSION_KEY_LENGTH && are_key_bytes(key.as_bytes())
}

/// Whether a text can be a permission's app or codename.
pub fn is_permission_word(word: &str) -> bool
    ensures { IsTrue result ↔ IsPermissionWord word.now }
{
    !word.is_empty() && are_word_bytes(word.as_bytes())
}

fn are_name_bytes(bytes: &[u8]) -> bool
    ensures { IsTrue result ↔ AllPass is_name_byte bytes.now }
{
    bytes.iter().all(|&byte| is_name_byte(byte))
}

fn is_name_byte(byte: u8) -> bool
    ensures { result ≡ is_name_byte byte }
{
    byte.is_ascii_alphanumeric()
        || byte == b'_'
        || byte == b'.'
        || byte == b'@'
        || byte == b'+'
        || byte == b'-'
}

fn are_graphic(bytes: &[u8]) -> bool
    ensures { IsTrue result ↔ AllPass is_ascii_graphic bytes.now }
{
    bytes.iter().all(|byte| byte.is_ascii_graphic())
}

fn are_key_bytes(bytes: &[u8]) -> bool
    ensures { IsTrue result ↔ AllPass is_key_byte bytes.now }
{
    bytes.iter().all(|&byte| is_key_byte(byte))
}

fn is_key_byte(byte: u8) -> bool
    ensures { result ≡ is_key_byte byte }
{
    byte.is_ascii_lowercase() || byte.is_ascii_digit()
}

fn are_word_bytes(bytes: &[u8]) -> bool
    ensures { IsTrue result ↔ AllPass is_word_byte bytes.now }
{
    bytes.iter().all(|&byte| is_word_byte(byte))
}

fn is_word_byte(byte: u8) -> bool
    ensures { result ≡ is_word_byte byte }
{
    is_key_byte(byte) || byte == b'_'
}
