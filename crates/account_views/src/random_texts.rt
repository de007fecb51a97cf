//! The random texts of a request.

ghost use Rattle.std.specs.Prelude.{◌≡◌, ◌<◌, ◌≤◌, IfOk, length};
ghost use Rattle.crypto_text.specs.Alphabet.{letters62, random_text};
ghost use Rattle.csrf_tokens.specs.Letters.{AreLetters};
ghost use Rattle.pass_hashers.specs.PasswordText.{IsSalt};
ghost use Rattle.outside.specs.RandomWords.{words_from};
ghost use Rattle.account_views.specs.RandomTexts.{login_secret, new_salt, new_secret, session_key, token_mask};

use crypto_text::{Alphabet, Text, text_of};
use middleware_chain::Secret;
use outside::{Words, request_words};
use pass_hashers::laws::random_letters_are_salt;
use std::alloc::{AllocError, Global};

const SECRET_WORDS: u64 = 512;

const MASK_WORDS: u64 = 544;

const LOGIN_SECRET_WORDS: u64 = 576;

const SALT_WORDS: u64 = 608;

/// How many letters a new salt has.
const SALT_SIZE: usize = 22;

/// The session key of a try, counted from 0.
#[tactic(auto, unfolding(crate::specs::RandomTexts::session_key))]
pub fn session_key<W: Words>(alloc: Global, words: &W, number: u64) -> Result<Text, AllocError>
    requires { number < 16 }
    ensures { IfOk result (λ key. key ≡ session_key (words_from (W.seen words.now) 1024) number) }
{
    text_of(
        alloc,
        &request_words(words, 32 * number),
        Alphabet::Session36,
    )
}

/// A new CSRF secret.
#[tactic(auto, unfolding(crate::specs::RandomTexts::new_secret))]
pub fn new_secret<W: Words>(alloc: Global, words: &W) -> Result<Secret, AllocError>
    ensures { IfOk result (λ secret. secret ≡ new_secret (words_from (W.seen words.now) 1024)) }
{
    let words = request_words(words, SECRET_WORDS);
    Ok(Secret::of_letters(letters(alloc, &words)?))
}

/// The mask of a page's CSRF token.
#[tactic(auto, unfolding(crate::specs::RandomTexts::token_mask))]
pub fn token_mask<W: Words>(alloc: Global, words: &W) -> Result<[u8; 32], AllocError>
    ensures mask { IfOk result (λ mask. mask ≡ token_mask (words_from (W.seen words.now) 1024)) }
    ensures letters { IfOk result AreLetters }
{
    letters(alloc, &request_words(words, MASK_WORDS))
}

/// The CSRF secret after a login.
#[tactic(auto, unfolding(crate::specs::RandomTexts::login_secret))]
pub fn login_secret<W: Words>(alloc: Global, words: &W) -> Result<Secret, AllocError>
    ensures { IfOk result (λ secret. secret ≡ login_secret (words_from (W.seen words.now) 1024)) }
{
    let words = request_words(words, LOGIN_SECRET_WORDS);
    Ok(Secret::of_letters(letters(alloc, &words)?))
}

/// The salt of a new password text.
#[tactic(auto, unfolding(crate::specs::RandomTexts::new_salt))]
pub fn new_salt<W: Words>(alloc: Global, words: &W) -> Result<Text, AllocError>
    ensures value { IfOk result (λ salt. salt ≡ new_salt (words_from (W.seen words.now) 1024)) }
    ensures salt { IfOk result IsSalt }
{
    let words = request_words(words, SALT_WORDS);
    salt_of(alloc, &words[..SALT_SIZE])
}

fn salt_of(alloc: Global, words: &[u32]) -> Result<Text, AllocError>
    requires some { 1 ≤ length words.now }
    requires most { length words.now ≤ 64 }
    ensures value { IfOk result (λ salt. salt ≡ random_text letters62 words.now) }
    ensures salt { IfOk result IsSalt }
{
    random_letters_are_salt();
    let salt = text_of(alloc, words, Alphabet::Letters62)?;
    Ok(salt)
}

fn letters(alloc: Global, words: &[u32; 32]) -> Result<[u8; 32], AllocError>
    ensures text { IfOk result (λ letters. letters ≡ random_text letters62 words.now) }
    ensures letters { IfOk result AreLetters }
{
    let text = text_of(alloc, words, Alphabet::Letters62)?;
    let mut letters = [0; 32];
    letters.copy_from_slice(text.as_str().as_bytes());
    Ok(letters)
}
