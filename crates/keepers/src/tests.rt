ghost use Rattle.std.specs.Prelude.{IfOk};
ghost use Rattle.ledger_rows.specs.Rows.{IsNumber, IsSoundMail};
ghost use Rattle.keepers.specs.Keeper.{IsSoundChange};

use super::*;
use crate::memory_rows::Rows;
use crypto_text::{Bytes, Ids, Text};
use ledger_rows::{MailRow, RowList};
use signing_core::Keys;
use std::alloc::{AllocError, Global};
use std::collections::VecDeque;
use std::test::Fail;

#[test]
fn chosen_calls_fail(rt: HostRuntime) -> Result<(), Fail> {
    let alloc = rt.alloc();
    let mut keeper = MemKeeper::new(alloc, Ids::of(alloc, &[0, 2])?);
    assert_eq!(rt; keeper.is_new(), Err(KeeperFault::Failed));
    assert_eq!(rt; keeper.is_new(), Ok(true));
    assert_eq!(rt; keeper.is_new(), Err(KeeperFault::Failed));
    assert_eq!(rt; keeper.faults(), 2);
    assert_eq!(rt; keeper.history_len(), 0);
    assert!(rt; keeper.entries().is_empty());
    Ok(())
}

// The id of a mail that is gone isn't given again.
#[test]
fn mails_come_and_go(rt: HostRuntime) -> Result<(), Fail> {
    let alloc = rt.alloc();
    let mut rows = no_rows(alloc)?;
    change(alloc, &mut rows, Change::PutMail(mail(alloc, 7)?))?;
    change(alloc, &mut rows, Change::PutMail(mail(alloc, 3)?))?;
    assert_eq!(rt; rows.mails.len(), 2);
    assert_eq!(rt; rows.mails.first().map(|mail| mail.id), Some(3));
    change(alloc, &mut rows, Change::DropMail(7))?;
    assert_eq!(rt; rows.mails.len(), 1);
    assert_eq!(rt; rows.next_mail, 8);
    Ok(())
}

fn change(alloc: Global, rows: &mut Rows, change: Change) -> Result<(), AllocError>
    requires { IsSoundChange change }
{
    let mut changes = VecDeque::new(alloc);
    changes.push_back(change)?;
    rows.reserve(1)?;
    rows.change_all(changes);
    Ok(())
}

fn mail(alloc: Global, id: u64) -> Result<MailRow, AllocError>
    requires { IsNumber id }
    ensures { IfOk result IsSoundMail }
{
    Ok(MailRow {
        id,
        to: Text::of(alloc, "")?,
        link: Text::of(alloc, "/reset/")?,
    })
}

fn no_rows(alloc: Global) -> Result<Rows, Fail> {
    Ok(Rows {
        keys: Keys::new(alloc, Bytes::of(alloc, b"key")?, Vec::new(alloc))?,
        users: Vec::new(alloc),
        groups: RowList::from_vec(Vec::new(alloc)),
        perms: RowList::from_vec(Vec::new(alloc)),
        sessions: Vec::new(alloc),
        mails: Vec::new(alloc),
        boot: 0,
        next_user: 1,
        next_mail: 1,
    })
}
