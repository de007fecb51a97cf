//! Rows of a vector in the order of their keys.

ghost use Rattle.std.specs.Prelude.{◌≡◌, ◌≤◌, ◌<◌, ◌+◌, IfErr, IfOk, insert, length, slice_set, vec_capacity, vec_len};
ghost use Rattle.keepers.specs.SortedRows.{put_by};

use ledger_rows::{MailRow, SessionRow, UserRow};
use std::cmp::Ordering;

/// A row that has a key.
pub trait Keyed: Drop {
    ghost use Rattle.std.specs.declared.cmp.Ordering.{Ordering};

    ghost cmp_key: { Self → Self → Ordering };

    /// How its key compares with that of the other row.
    fn cmp_key(&self, other: &Self) -> Ordering
        ensures { result ≡ cmp_key self.now other.now };
}

impl Keyed for UserRow {
    ghost use Rattle.std.specs.Ordering.{nat_cmp};

    ghost cmp_key = { λ a b. nat_cmp a.id b.id };

    fn cmp_key(&self, other: &UserRow) -> Ordering {
        self.id.cmp(&other.id)
    }
}

impl Keyed for SessionRow {
    ghost use Rattle.std.specs.Cmp.Lexicographic.{slice_cmp};
    ghost use Rattle.std.specs.Ordering.{nat_cmp};

    ghost cmp_key = { λ a b. slice_cmp nat_cmp a.key b.key };

    fn cmp_key(&self, other: &SessionRow) -> Ordering {
        self.key.cmp(&other.key)
    }
}

impl Keyed for MailRow {
    ghost use Rattle.std.specs.Ordering.{nat_cmp};

    ghost cmp_key = { λ a b. nat_cmp a.id b.id };

    fn cmp_key(&self, other: &MailRow) -> Ordering {
        self.id.cmp(&other.id)
    }
}

/// Puts a row among the others, for which there is room, or in place of the one of its key.
pub fn put_row<T: Keyed>(rows: &mut Vec<T>, row: T)
    requires { vec_len rows.old < vec_capacity rows.old }
    ensures value { rows.new.items ≡ put_by T.cmp_key rows.old.items row }
    ensures len { vec_len rows.new ≤ vec_len rows.old + 1 }
    ensures capacity { vec_capacity rows.new ≡ vec_capacity rows.old }
{
    match place_of(rows.as_slice(), &row) {
        Ok(index) => rows[index] = row,
        Err(index) => {
            if rows.insert(index, row).is_err() {
                unreachable!()
            }
        }
    }
}

// The index of the row of this row's key, or the one at which it is to be put in.
fn place_of<T: Keyed>(rows: &[T], row: &T) -> Result<usize, usize>
    ensures found { IfOk result (λ index. index < length rows.now) }
    ensures none { IfErr result (λ index. index ≤ length rows.now) }
    ensures replaced { IfOk result (λ index. put_by T.cmp_key rows.now row.now ≡ slice_set rows.now index row.now) }
    ensures inserted { IfErr result (λ index. put_by T.cmp_key rows.now row.now ≡ insert rows.now index row.now) }
{
    for (index, other) in rows.iter().enumerate() {
        match other.cmp_key(row) {
            Ordering::Less => {}
            Ordering::Equal => return Ok(index),
            Ordering::Greater => return Err(index),
        }
    }
    Err(rows.len())
}
