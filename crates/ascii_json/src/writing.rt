//! From a profile value to JSON text in ASCII.

ghost use Rattle.std.specs.Prelude.{◌≡◌, ◌<◌, ◌^◌, ◌++◌, ◌∷◌, [], All, IfOk, OnOk, string_bytes};
ghost use Rattle.std.specs.Char.{digit_char};
ghost use Rattle.serde_json.specs.View.{view};
ghost use Rattle.ascii_json.specs.AsciiJson.{IsPrintable, json_of, unicode_escape};
ghost use Rattle.ascii_json.specs.Escaping.{escaped_beyond_ascii, escaped_text};
ghost use Rattle.ascii_json.specs.Profile.{IsProfile, Reads};
ghost use Rattle.ascii_json.specs.Representable.{IsRepresentable};

use crypto_text::Text;
use serde_json::Value;
use std::alloc::{AllocError, Global};

/// The text of a profile value. `is_profile` says whether a value is one.
pub fn json_ascii(alloc: Global, value: &Value) -> Result<Text, AllocError>
    requires profile { IsProfile (view value.now) }
    ensures ok { IfOk result (λ text. text ≡ json_of (view value.now)) }
    ensures printable { IfOk result (λ text. All IsPrintable text) }
    ensures reads { IfOk result (λ text. Reads text (view value.now)) }
    ensures representable { OnOk result (IsRepresentable (view value.now)) }
{
    let compact = value.to_string(alloc)?;
    let ascii = to_ascii(alloc, compact.as_str())?;
    Ok(Text::from_string(ascii))
}

// JSON text has characters beyond ASCII in its strings alone, and none of them in an escape.
fn to_ascii(alloc: Global, text: &str) -> Result<String, AllocError>
    ensures { IfOk result (λ ascii. string_bytes ascii ≡ escaped_text text.now) }
{
    // Room for a text without such characters.
    let mut out = String::with_capacity(alloc, text.len())?;
    for c in text.chars() {
        push_char(&mut out, c)?;
    }
    Ok(out)
}

fn push_char(out: &mut String, c: char) -> Result<(), AllocError>
    ensures { OnOk result (string_bytes out.new ≡ string_bytes out.old ++ escaped_beyond_ascii c) }
{
    let code = c as u32;
    if code < 0x7f {
        out.push(c)
    } else if code < 0x1_0000 {
        push_code_unit(out, code)
    } else {
        let above = code - 0x1_0000;
        push_code_unit(out, 0xd800 + above / 1024)?;
        push_code_unit(out, 0xdc00 + above % 1024)
    }
}

fn push_code_unit(out: &mut String, unit: u32) -> Result<(), AllocError>
    requires { unit < 2 ^ 16 }
    ensures { OnOk result (string_bytes out.new ≡ string_bytes out.old ++ unicode_escape unit) }
{
    out.push('\\')?;
    out.push('u')?;
    push_digit(out, unit / 4096)?;
    push_digit(out, unit / 256 % 16)?;
    push_digit(out, unit / 16 % 16)?;
    push_digit(out, unit % 16)
}

fn push_digit(out: &mut String, digit: u32) -> Result<(), AllocError>
    requires { digit < 16 }
    ensures { OnOk result (string_bytes out.new ≡ string_bytes out.old ++ digit_char digit ∷ []) }
{
    match char::from_digit(digit, 16) {
        Some(c) => out.push(c),
        None => unreachable!(),
    }
}
