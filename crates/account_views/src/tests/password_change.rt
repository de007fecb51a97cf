ghost use Rattle.pass_hashers.specs.PasswordText.{IsUsable};
ghost use Rattle.std.specs.Prelude.{IfOk};

use super::{alice, settings_of, text_of};
use crate::call::Call;
use crate::page::Viewed;
use crate::password_change::{ChangeStage, change_next, password_change};
use crate::progress::Progress;
use crate::visit::Visit;
use auth_backends::SessionBox;
use crypto_text::{Ids, TextList};
use http_edge::Field;
use ledger_rows::{Op, Reply, RowList, UserRead};
use middleware_chain::{Route, Settings};
use outside::ListWords;
use pass_hashers::{Algo, Hasher};
use session_codec::{from_payload, payload};
use std::alloc::{AllocError, Global};
use std::test::Fail;

// The text of `correct horse` by Django's `MD5PasswordHasher`.
const OLD_TEXT: &str = "md5$seasalt$b614725f4cc025a51ab6a354d12890ab";

// That of `battery staple`, with the salt of random words that are all 0.
const NEW_TEXT: &str = "md5$aaaaaaaaaaaaaaaaaaaaaa$1dae181e0bd336c8e4055fb96c3359e4";

// The first line of a form's page, where the random words are all 0.
const TOKEN_LINE: &str = "csrf=aaaaaaaaaaaaaaaaaaaaaaaaaaaaaaaaaaaaaaaaaaaaaaaaaaaaaaaaaaaaaaaa\n";

const MAP: &str = "{\"_auth_user_hash\":\"5c\",\"_auth_user_id\":\"1\"}";

const REHASHED: &str = "{\"_auth_user_hash\":\"5e\",\"_auth_user_id\":\"1\"}";

fn site(alloc: Global) -> Result<Settings, AllocError>
    ensures { IfOk result (λ site. IsUsable site.cfg.preferred) }
{
    let mut site = settings_of(alloc)?;
    let mut installed = Vec::new(alloc);
    installed.push(Algo::Md5)?;
    site.cfg.installed = RowList::from_vec(installed);
    site.cfg.preferred = Hasher::Md5;
    site.common = TextList::of(
        alloc,
        &[text_of(alloc, "password")?, text_of(alloc, "123456789")?],
    )?;
    Ok(site)
}

fn field(alloc: Global, name: &str, value: &str) -> Result<Field, AllocError> {
    Ok(Field {
        name: text_of(alloc, name)?,
        value: text_of(alloc, value)?,
    })
}

fn form(alloc: Global, old: &str, first: &str, second: &str) -> Result<Call, AllocError> {
    let mut fields = Vec::new(alloc);
    fields.push(field(alloc, "old_password", old)?)?;
    fields.push(field(alloc, "new_password1", first)?)?;
    fields.push(field(alloc, "new_password2", second)?)?;
    Ok(Call {
        route: Route::PasswordChange,
        post: true,
        fields: RowList::from_vec(fields),
        query: RowList::from_vec(Vec::new(alloc)),
        secret: None,
    })
}

fn reader(alloc: Global) -> Result<UserRead, AllocError> {
    let mut read = alice(alloc)?;
    read.row.password = text_of(alloc, OLD_TEXT)?;
    Ok(read)
}

fn visit_by(alloc: Global, user: Option<UserRead>) -> Result<Visit, Fail> {
    let session = SessionBox {
        came: true,
        key: Some(text_of(alloc, "a-session")?),
        map: from_payload(alloc, MAP)?,
        dropped: None,
        cycle: false,
        accessed: true,
        modified: false,
    };
    Ok(Visit { session, user })
}

fn zeros(alloc: Global) -> ListWords {
    ListWords::new(Ids::from_vec(Vec::new(alloc)), 0)
}

fn change(alloc: Global, call: Call, visit: Visit) -> Result<Progress<ChangeStage, Viewed>, Fail> {
    let site = site(alloc)?;
    Ok(password_change(alloc, &site, &zeros(alloc), call, visit)?)
}

// What a page says and what became of the session, as one text.
fn seen(alloc: Global, viewed: &Viewed) -> Result<String, AllocError> {
    let page = &viewed.page;
    let target = match &page.location {
        Some(target) => target.as_str(),
        None => "-",
    };
    let map = payload(alloc, &viewed.session.map)?;
    format!(in alloc;
        "{} {} {} {}\n{}",
        page.status,
        target,
        map.as_str(),
        viewed.session.cycle && viewed.session.modified,
        page.body.as_str()
    )
}

fn form_seen(alloc: Global, line: &str) -> Result<String, AllocError> {
    format!(in alloc; "200 - {MAP} false\n{TOKEN_LINE}{line}")
}

fn end_seen(
    alloc: Global,
    progress: Progress<ChangeStage, Viewed>,
) -> Result<Option<String>, AllocError> {
    match progress {
        Progress::Asks(_, _) => Ok(None),
        Progress::Ends(viewed) => Ok(Some(seen(alloc, &viewed)?)),
    }
}

#[test]
fn a_form_is_refused_with_its_first_fault(rt: HostRuntime) -> Result<(), Fail> {
    let alloc = rt.alloc();
    for (old, first, second, line) in [
        ("correct", "short", "long", "error=old\n"),
        ("correct horse", "short", "long", "error=mismatch\n"),
        ("correct horse", "1234567", "1234567", "error=too-short\n"),
        (
            "correct horse",
            "123456789",
            "123456789",
            "error=all-digits\n",
        ),
        ("correct horse", " PassWord", " PassWord", "error=common\n"),
    ] {
        let call = form(alloc, old, first, second)?;
        let visit = visit_by(alloc, Some(reader(alloc)?))?;
        let seen = end_seen(alloc, change(alloc, call, visit)?)?;
        assert_eq!(rt; seen, Some(form_seen(alloc, line)?), "{line}");
    }
    Ok(())
}

fn taken(alloc: Global) -> Result<Progress<ChangeStage, Viewed>, Fail> {
    let call = form(alloc, "correct horse", "battery staple", "battery staple")?;
    change(alloc, call, visit_by(alloc, Some(reader(alloc)?))?)
}

fn op_of(progress: Progress<ChangeStage, Viewed>) -> Option<Op> {
    match progress {
        Progress::Asks(op, _) => Some(op),
        Progress::Ends(_) => None,
    }
}

#[test]
fn the_new_text_takes_the_place_of_the_loaded_one(rt: HostRuntime) -> Result<(), Fail> {
    let alloc = rt.alloc();
    let op = Op::SetPassword {
        user: 1,
        expected: text_of(alloc, OLD_TEXT)?,
        fresh: text_of(alloc, NEW_TEXT)?,
    };
    assert!(rt; op_of(taken(alloc)?) == Some(op));
    Ok(())
}

fn after(
    alloc: Global,
    progress: Progress<ChangeStage, Viewed>,
    reply: Reply,
) -> Result<Option<String>, AllocError> {
    match progress {
        Progress::Asks(_, stage) => {
            end_seen(alloc, change_next(alloc, &zeros(alloc), stage, reply)?)
        }
        Progress::Ends(_) => Ok(None),
    }
}

#[test]
fn a_changed_password_keeps_the_user_logged_in(rt: HostRuntime) -> Result<(), Fail> {
    let alloc = rt.alloc();
    let reply = Reply::Written {
        auth_hash: text_of(alloc, "5e")?,
    };
    let wanted = format!(in alloc; "302 /whoami/ {REHASHED} true\n")?;
    assert_eq!(rt; after(alloc, taken(alloc)?, reply)?, Some(wanted));
    Ok(())
}

#[test]
fn another_text_in_the_row_is_kept(rt: HostRuntime) -> Result<(), Fail> {
    let alloc = rt.alloc();
    let reply = Reply::Differs {
        present: text_of(alloc, NEW_TEXT)?,
    };
    assert_eq!(rt;
        after(alloc, taken(alloc)?, reply)?,
        Some(form_seen(alloc, "error=changed\n")?)
    );
    assert_eq!(rt;
        after(alloc, taken(alloc)?, Reply::NoRow)?,
        Some(form_seen(alloc, "error=changed\n")?)
    );
    Ok(())
}

#[test]
fn the_form_is_for_users(rt: HostRuntime) -> Result<(), Fail> {
    let alloc = rt.alloc();
    let mut call = form(alloc, "", "", "")?;
    call.post = false;
    let shown = change(alloc, call, visit_by(alloc, Some(reader(alloc)?))?)?;
    assert_eq!(rt; end_seen(alloc, shown)?, Some(form_seen(alloc, "")?));
    let call = form(alloc, "correct horse", "battery staple", "battery staple")?;
    let sent = change(alloc, call, visit_by(alloc, None)?)?;
    let wanted = format!(in alloc; "302 /login/?next=/password_change/ {MAP} false\n")?;
    assert_eq!(rt; end_seen(alloc, sent)?, Some(wanted));
    Ok(())
}
