//! What the store holds and what is done to it: rows, operations and their replies, the entries of the
//! audit list, and the definitions of the state after an operation, of its reply, and of a legal history.
#![tactic(auto)]

mod admission;
mod auth_keys;
mod entry;
mod form;
pub mod laws;
mod operation;
mod reply;
mod row_list;
mod rows;
#[cfg(test)]
mod tests;
mod verdict;
mod well_formed;

pub use crate::admission::{Judgement, admit, judge, session_auth_hash, session_auth_text};
pub use crate::auth_keys::{AuthKeyList, AuthKeys};
pub use crate::entry::{Entry, Tag};
pub use crate::form::{is_email, is_permission_word, is_session_key, is_user_name};
pub use crate::operation::Op;
pub use crate::reply::{Reply, UserRead};
pub use crate::row_list::{Row, RowList};
pub use crate::rows::{Backend, Cfg, Engine, MailRow, Opening, SessionRow, UserRow};
pub use crate::verdict::Verdict;
pub use crate::well_formed::op_ok;
