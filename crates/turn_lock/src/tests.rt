//! Turns of one thread and of several.

ghost use Rattle.std.specs.Prelude.{◌≡◌, ◌≤◌, IfSome};
ghost use Rattle.std.specs.List.{All};

use crate::laws::entries_of_two_interleave;
use crate::{Booked, Pass, Shared, Turn};
use std::alloc::Global;
use std::sync::Wait;
use std::test::Fail;
use std::thread::{join, map_vec};

// Who took a turn, in order. A turn that isn't noted is a fault.
#[derive(Drop)]
struct Notes {
    owners: Vec<u64>,
    faults: u64,
}

impl Booked for Notes {
    ghost use Rattle.std.specs.Prelude.{true};

    type Entry = u64;

    ghost fixed_type = { Unit {0} };

    ghost means = { record { fixed = λ _. tt; sound = λ _. Unit {0}; reports = λ _. true; log = λ b. b.owners.items; owner = λ e. e; faults = λ b. b.faults } };
}

// Notes the owner. The reply is how many notes there are, or `None` where it isn't noted.
#[derive(Clone, Copy, Drop)]
struct Note {
    owner: u64,
    is_valid: bool,
}

impl Turn<Notes> for Note {
    ghost use Rattle.std.specs.Prelude.{◌≡◌, is_some, is_none, ⊤};

    type Reply = Option<usize>;

    ghost asks = { λ t. t.owner };

    ghost changes = { λ _ _ _ _. ⊤ };

    ghost grows = { is_some };

    ghost fails = { is_none };

    fn take(self, book: &mut Notes) -> Option<usize> {
        if self.is_valid && book.owners.push(self.owner).is_ok() {
            return Some(book.owners.len());
        }
        book.faults = book.faults.saturating_add(1);
        None
    }

    fn grew(reply: &Option<usize>) -> bool {
        reply.is_some()
    }

    fn failed(reply: &Option<usize>) -> bool {
        reply.is_none()
    }
}

fn started(alloc: Global, seats: u32) -> Option<(Shared<Notes>, Pass<Notes>)>
    requires { (1 ≤ seats) × (seats ≤ 65) }
    ensures { IfSome result (λ r. r.1.table ≡ r.0.table) }
{
    let notes = Notes {
        owners: Vec::new(alloc),
        faults: 0,
    };
    Shared::new(alloc, notes, seats).ok()
}

fn take_turn<R: Wait>(
    rt: &R,
    shared: &Shared<Notes>,
    pass: &mut Pass<Notes>,
    is_valid: bool,
) -> Option<usize>
    requires { pass.old.table ≡ shared.now.table }
    ensures { pass.new.table ≡ pass.old.table }
{
    let owner = pass.number();
    shared.run(rt, pass, Note { owner, is_valid })
}

// Takes so many turns. The number is the last reply.
fn take_turns<R: Wait>(
    rt: &R,
    shared: &Shared<Notes>,
    mut pass: Pass<Notes>,
    turns: u32,
) -> (Pass<Notes>, Option<usize>)
    requires { pass.table ≡ shared.now.table }
    ensures { result.0.table ≡ pass.table }
{
    let mut last = None;
    for _ in 0..turns {
        last = take_turn(rt, shared, &mut pass, true);
    }
    (pass, last)
}

// A pass for each of so many threads.
fn passes(
    alloc: Global,
    shared: &Shared<Notes>,
    mut first: Pass<Notes>,
    threads: u32,
) -> Option<Vec<Pass<Notes>>>
    requires same { first.table ≡ shared.now.table }
    ensures { IfSome result (λ v. All (λ p. p.table ≡ shared.now.table) v.items) }
{
    let mut all = Vec::new(alloc);
    for _ in 1..threads {
        let other = shared.split(&mut first)?;
        all.push(other).ok()?;
    }
    all.push(first).ok()?;
    Some(all)
}

#[test]
fn one_seat_is_not_split_and_closes(rt: HostRuntime) -> Result<(), Fail> {
    let Some((shared, mut pass)) = started(rt.alloc(), 1) else {
        panic!(rt; "memory")
    };
    entries_of_two_interleave::<Notes>();
    assert!(rt; shared.split(&mut pass).is_none());
    let first = take_turn(&rt, &shared, &mut pass, true);
    let failed = take_turn(&rt, &shared, &mut pass, false);
    let second = take_turn(&rt, &shared, &mut pass, true);
    assert!(rt; (first, failed, second) == (Some(1), None, Some(2)));
    let Ok(notes) = shared.close(pass) else {
        panic!(rt; "another pass")
    };
    assert!(rt; notes.owners.as_slice() == [0, 0].as_slice() && notes.faults == 1);
    Ok(())
}

#[test]
fn two_threads_take_turns_and_close(rt: HostRuntime) -> Result<(), Fail> {
    let Some((shared, mut pass)) = started(rt.alloc(), 3) else {
        panic!(rt; "memory")
    };
    let Some(other) = shared.split(&mut pass) else {
        panic!(rt; "a seat is free")
    };
    let lock = &shared;
    let host = &rt;
    let ((mut pass, _), (other, _)) = join(
        &rt,
        || -> (Pass<Notes>, Option<usize>)
            requires { pass.table ≡ lock.now.table }
            ensures { result.0.table ≡ pass.table }
        { take_turns(host, lock, pass, 100) },
        || -> (Pass<Notes>, Option<usize>)
            requires { other.table ≡ lock.now.table }
            ensures { result.0.table ≡ other.table }
        { take_turns(host, lock, other, 50) },
    );
    shared.join(&mut pass, other);
    let Ok(notes) = shared.close(pass) else {
        panic!(rt; "another pass")
    };
    let of_second = notes.owners.iter().filter(|owner| **owner == 1).count();
    assert!(rt; notes.owners.len() == 150 && of_second == 50);
    Ok(())
}

#[test]
fn a_pass_that_was_dropped_stays_out(rt: HostRuntime) -> Result<(), Fail> {
    let Some((shared, mut pass)) = started(rt.alloc(), 2) else {
        panic!(rt; "memory")
    };
    drop(shared.split(&mut pass));
    let Err(closing) = shared.close(pass) else {
        panic!(rt; "it closed")
    };
    let text = format!(in rt.alloc(); "{closing} {closing:?}")?;
    assert!(rt; text.as_str() == "another pass is out Closing { .. }");
    Ok(())
}

// More threads than processors, so that most of them sleep.
#[test]
fn each_sleeper_is_woken(rt: HostRuntime) -> Result<(), Fail> {
    let Some((shared, pass)) = started(rt.alloc(), 16) else {
        panic!(rt; "memory")
    };
    let Some(all) = passes(rt.alloc(), &shared, pass, 16) else {
        panic!(rt; "memory")
    };
    let lock = &shared;
    let host = &rt;
    let replies = map_vec(
        &rt,
        all,
        &|pass: Pass<Notes>| -> Option<usize>
            requires { pass.table ≡ lock.now.table }
        { take_turns(host, lock, pass, 300).1 },
    );
    let Ok(replies) = replies else {
        panic!(rt; "memory")
    };
    assert!(rt; replies.iter().flatten().max() == Some(&4800));
    Ok(())
}
