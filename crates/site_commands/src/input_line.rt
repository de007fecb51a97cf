//! The line that some commands read from the input: a password or a key.

ghost use Rattle.std.specs.Prelude.{◌≡◌, ◌≤◌, ◌<◌, ◌+◌, List, ℕ, None, Some, IfOk, IsErrOf, MatchOption, OnErr, length};
ghost use Rattle.std.specs.List.{before_first, position};
ghost use Rattle.outside.specs.Devices.{HasRead};
ghost use Rattle.outside.specs.Faults.{Rose};
ghost use Rattle.site_commands.specs.InputLine.{HasReadLine, is_newline, line_of, text_line};

use crypto_text::Text;
use outside::{InputFault, Source, read_up_to};
use std::alloc::Global;
use std::str::from_utf8;

const LONGEST_LINE: usize = 4096;

/// The line at the front of an input. None where it is too long or isn't UTF-8.
#[tactic(auto, unfolding(crate::specs::InputLine::line_of))]
pub fn line_of(input: &[u8]) -> Option<&str>
    ensures { MatchOption result (line_of input.now ≡ None) (λ line. line_of input.now ≡ Some line.now) }
{
    text_line(first_line(input))
}

fn first_line(input: &[u8]) -> &[u8]
    ensures { result.now ≡ before_first is_newline input.now }
{
    match newline_in(input) {
        Some(end) => &input[..end],
        None => input,
    }
}

fn newline_in(input: &[u8]) -> Option<usize>
    ensures { result ≡ position is_newline input.now }
{
    input.iter().position(|&byte| byte == b'\n')
}

fn text_line(line: &[u8]) -> Option<&str>
    ensures { MatchOption result (text_line line.now ≡ None) (λ text. text_line line.now ≡ Some text.now) }
{
    if line.len() > LONGEST_LINE {
        return None;
    }
    match from_utf8(line) {
        Ok(text) => Some(text),
        Err(_) => None,
    }
}

/// Reads the line at the front of an input, which isn't used again: bytes after the line may have been read, too.
pub fn read_line<S: Source>(alloc: Global, source: &mut S) -> Result<Option<Text>, InputFault>
    ensures ok { IfOk result (HasReadLine (S.seen source.old) (S.seen source.new)) }
    ensures err { OnErr result ((taken : List ℕ) × HasRead (S.seen source.old) (S.seen source.new) taken) }
    ensures failed { IsErrOf result InputFault.Failed → Rose (S.seen source.old).faults (S.seen source.new).faults }
{
    // One byte more than a line may have, to see that it is too long.
    let bytes = read_up_to(alloc, source, LONGEST_LINE + 1)?;
    match line_of(bytes.as_slice()) {
        Some(line) => Ok(Some(Text::of(alloc, line)?)),
        None => Ok(None),
    }
}
