//! How far a part of a request has come.

use ledger_rows::Op;

/// What a part of a request does next. It stands for the steps that the part still has.
#[derive(Drop)]
pub enum Progress<S, T> {
    /// It asks for a step, and goes on from this stage by the reply.
    Asks(Op, S),
    /// It has ended.
    Ends(T),
}
