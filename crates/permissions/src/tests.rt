use super::*;
use crypto_text::{Ids, Text, TextList};
use std::alloc::{AllocError, Global};

fn perm(alloc: Global, id: u64, codename: &str) -> Result<PermRow, AllocError> {
    Ok(PermRow {
        id,
        app: Text::of(alloc, "blog")?,
        codename: Text::of(alloc, codename)?,
    })
}

fn editors(alloc: Global, id: u64, perm: u64) -> Result<GroupRow, AllocError> {
    Ok(GroupRow {
        id,
        name: Text::of(alloc, "editors")?,
        perms: Ids::of(alloc, &[perm])?,
    })
}

/// The names of a user's set and of his groups' set: his own permission is 1, he is in group 7,
/// which has permission 2, and not in group 8, which has permission 3.
fn sets_of(alloc: Global, active: bool, superuser: bool) -> Result<(PermSet, PermSet), AllocError> {
    let perms = [
        perm(alloc, 3, "delete_post")?,
        perm(alloc, 2, "change_post")?,
        perm(alloc, 1, "add_post")?,
    ];
    let groups = [editors(alloc, 7, 2)?, editors(alloc, 8, 3)?];
    let own = Ids::of(alloc, &[1])?;
    let joined = Ids::of(alloc, &[7])?;
    let user = Holder {
        active,
        superuser,
        groups: &joined,
        perms: &own,
    };
    Ok((
        all_permissions(alloc, &user, &groups, &perms)?,
        group_permissions(alloc, &user, &groups, &perms)?,
    ))
}

fn two_names(alloc: Global, first: &str, second: &str) -> Result<TextList, AllocError> {
    let names = [Text::of(alloc, first)?, Text::of(alloc, second)?];
    TextList::of(alloc, &names)
}

#[test]
fn a_user_has_his_own_and_his_groups_permissions(rt: HostRuntime) {
    let (all, by_groups) = sets_of(rt.alloc(), true, false).expect(&rt, "there is memory");
    let both = two_names(rt.alloc(), "blog.add_post", "blog.change_post").expect(
        &rt,
        "there is memory",
    );
    let one_more = two_names(rt.alloc(), "blog.add_post", "blog.delete_post").expect(
        &rt,
        "there is memory",
    );

    assert_eq!(rt; *all.names(), both);
    assert_eq!(rt; has_perm(&all, "blog.add_post"), true);
    assert_eq!(rt; has_perm(&all, "blog.delete_post"), false);
    assert_eq!(rt; has_perms(&all, &both), true);
    assert_eq!(rt; has_perms(&all, &one_more), false);
    assert_eq!(rt; has_module_perms(&all, "blog"), true);
    assert_eq!(rt; has_module_perms(&all, "blo"), false);

    assert_eq!(rt; by_groups.names().items().len(), 1);
    assert_eq!(rt; has_perm(&by_groups, "blog.change_post"), true);
    assert_eq!(rt; by_groups.all(), false);
}

#[test]
fn an_inactive_user_has_no_permission(rt: HostRuntime) {
    let (all, by_groups) = sets_of(rt.alloc(), false, true).expect(&rt, "there is memory");
    assert_eq!(rt; all.all(), false);
    assert_eq!(rt; all.names().items().len(), 0);
    assert_eq!(rt; has_module_perms(&all, "blog"), false);
    assert_eq!(rt; by_groups, all);
}

#[test]
fn a_superuser_has_every_permission(rt: HostRuntime) {
    let (all, by_groups) = sets_of(rt.alloc(), true, true).expect(&rt, "there is memory");
    assert_eq!(rt; all.names().items().len(), 3);
    assert_eq!(rt; has_perm(&all, "of no row"), true);
    assert_eq!(rt; has_module_perms(&all, "of no row"), true);
    assert_eq!(rt; by_groups, all);
}

#[test]
fn rows_and_sets_are_copied(rt: HostRuntime) {
    let row = perm(rt.alloc(), 1, "add_post").expect(&rt, "there is memory");
    assert_eq!(rt; row.copy(rt.alloc()), Ok(row));
    let group = editors(rt.alloc(), 7, 2).expect(&rt, "there is memory");
    assert_eq!(rt; group.copy(rt.alloc()), Ok(group));
    let (all, _) = sets_of(rt.alloc(), true, false).expect(&rt, "there is memory");
    assert_eq!(rt; all.copy(rt.alloc()), Ok(all));
}
