//! When the bytes of a head are looked at, so that one which comes in single bytes isn't parsed at each.

ghost use Rattle.std.specs.Prelude.{◌≡◌, ◌<◌, false, length};

use crate::request_head::HEAD_LIMIT;

/// Follows the lines of the bytes as they come. A look is due after an empty line, where a head may end, and where
/// there are twice as many bytes as at the last look, so that bytes which begin no head are refused soon. What a
/// head is, the look alone decides.
#[derive(Drop)]
pub(crate) struct HeadWatch {
    followed: usize,
    has_begun: bool,
    is_empty_line: bool,
    next_look: usize,
}

impl HeadWatch {
    pub(crate) fn new() -> HeadWatch {
        HeadWatch {
            followed: 0,
            has_begun: false,
            is_empty_line: true,
            next_look: 0,
        }
    }

    /// Whether to look now, where more bytes are there than before.
    pub(crate) fn is_due(&mut self, bytes: &[u8]) -> bool
        ensures { result ≡ false → length bytes.now < 16384 }
    {
        let len = bytes.len();
        if len >= HEAD_LIMIT {
            return true;
        }
        let may_end = self.follow(bytes);
        if may_end || len >= self.next_look {
            self.next_look = 2 * len;
            return true;
        }
        false
    }

    fn follow(&mut self, bytes: &[u8]) -> bool {
        let start = self.followed.min(bytes.len());
        let mut may_end = false;
        for byte in &bytes[start..] {
            if self.ends_head(*byte) {
                may_end = true;
            }
        }
        self.followed = bytes.len();
        may_end
    }

    // Empty lines before the first other line are no end of a head.
    fn ends_head(&mut self, byte: u8) -> bool {
        match byte {
            b'\n' => {
                let ends = self.has_begun && self.is_empty_line;
                self.is_empty_line = true;
                ends
            }
            b'\r' => false,
            _ => {
                self.has_begun = true;
                self.is_empty_line = false;
                false
            }
        }
    }
}
