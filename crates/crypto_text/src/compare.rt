//! Comparison of secrets.

ghost use Rattle.std.specs.Prelude.{◌≡◌, ◌↔◌, IsTrue};

#[cfg(test)]
mod tests;

/// Whether two byte strings are equal. Where their lengths agree it looks at every byte, whatever
/// it finds on the way, as Django's `constant_time_compare`; nothing is proved of its time.
pub fn same(a: &[u8], b: &[u8]) -> bool
    ensures { IsTrue result ↔ (a.now ≡ b.now) }
{
    if a.len() != b.len() {
        return false;
    }
    let mut equal = true;
    for (x, y) in a.iter().zip(b) {
        equal &= x == y;
    }
    equal
}
