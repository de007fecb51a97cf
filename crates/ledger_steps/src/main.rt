//! Takes steps of a ledger over a keeper in memory, for `bench/steps`. Each line of input is an operation, a number of
//! sessions and a number of steps, as in `load 1000 500`. A store with one user is opened for it, that many sessions of
//! the user are created, and the steps are taken. The answer is how many of the steps got the reply that is due: a user
//! admitted, a session stored, or `Done`.
//!
//! `create` makes further sessions; `load`, `save` and `delete` go over those that are there, in a scattered order. The
//! payload of a session has the three names of a login.
#![tactic(auto)]

mod line;
mod site;
mod steps;

use crate::line::work_of;
use crate::steps::due_replies;
use anyhow::Result;

fn main(rt: HostRuntime) -> Result<()> {
    for line in rt.lines(rt.alloc()) {
        match work_of(line?.as_str()) {
            Some(work) => println!(rt; "{}", due_replies(rt.alloc(), work)?)?,
            None => println!(rt; "no operation and two numbers")?,
        }
    }
    Ok(())
}
