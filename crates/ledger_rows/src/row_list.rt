//! A list of rows.

ghost use Rattle.std.specs.Prelude.{◌≡◌, IfOk};

use crate::rows::{Backend, MailRow, SessionRow, UserRow};
use pass_hashers::Algo;
use permissions::{GroupRow, PermRow};
use std::alloc::{AllocError, Global};
use std::marker::Model;

/// What can be copied field by field.
pub trait Row: Drop {
    /// The same row once more.
    fn copy_row(&self, alloc: Global) -> Result<Self, AllocError>
        ensures { IfOk result (λ copy. copy ≡ self.now) };
}

/// Rows in order, seen as a list.
#[derive(Drop)]
pub struct RowList<T> {
    rows: Vec<T>,
}

impl<T> Model for RowList<T> {
    ghost use Rattle.std.specs.Prelude.{List};

    ghost Value = { List T };

    ghost view = { λ l. l.rows.items };
}

impl<T> RowList<T> {
    /// The rows to read.
    pub fn items(&self) -> &[T]
        ensures { result.now ≡ self.now }
    {
        self.rows.as_slice()
    }

    /// Takes over a vector, and takes no memory.
    pub fn from_vec(rows: Vec<T>) -> RowList<T>
        ensures { result ≡ rows.items }
    {
        RowList { rows }
    }

    /// Gives the vector back, and takes no memory.
    pub fn into_vec(self) -> Vec<T>
        ensures { result.items ≡ self }
    {
        self.rows
    }
}

impl<T: Row> RowList<T> {
    /// The same rows once more.
    pub fn copy(&self, alloc: Global) -> Result<RowList<T>, AllocError>
        ensures { IfOk result (λ copy. copy ≡ self.now) }
    {
        let mut rows = Vec::new(alloc);
        for row in self.items() {
            rows.push(row.copy_row(alloc)?)?;
        }
        Ok(RowList { rows })
    }
}

impl Row for UserRow {
    fn copy_row(&self, alloc: Global) -> Result<UserRow, AllocError> {
        self.copy(alloc)
    }
}

impl Row for SessionRow {
    fn copy_row(&self, alloc: Global) -> Result<SessionRow, AllocError> {
        self.copy(alloc)
    }
}

impl Row for MailRow {
    fn copy_row(&self, alloc: Global) -> Result<MailRow, AllocError> {
        self.copy(alloc)
    }
}

impl Row for GroupRow {
    fn copy_row(&self, alloc: Global) -> Result<GroupRow, AllocError> {
        self.copy(alloc)
    }
}

impl Row for PermRow {
    fn copy_row(&self, alloc: Global) -> Result<PermRow, AllocError> {
        self.copy(alloc)
    }
}

impl Row for Backend {
    fn copy_row(&self, _alloc: Global) -> Result<Backend, AllocError> {
        Ok(*self)
    }
}

impl Row for Algo {
    fn copy_row(&self, _alloc: Global) -> Result<Algo, AllocError> {
        Ok(*self)
    }
}
