// The forms at work: tables of cases, each asked of all three.
use crate::trail::Trail;
use conjunctive::record::Conjunctive;
use disjunctive::record::Disjunctive;
use groups::{GroupSet, NO_GROUPS, insert};
use rights::directory::Directory;
use rights::execute::Execute;
use rights::form::{Form, TooDeep};
use rights::path::flatten;
use rights::subject::Subject;
use std::process::Abort;
use std::test::Fail;

// A directory by its execute bits as one octal digit.
fn directory(bits: u8, owner: u16, group: u8) -> Directory {
    let execute = Execute {
        owner: bits / 4 % 2 == 1,
        group: bits / 2 % 2 == 1,
        others: bits % 2 == 1,
    };
    Directory {
        owner,
        group,
        execute,
    }
}

// Sixteen directories with the same bits, of owners and groups 1 to 16.
fn sixteen(bits: u8) -> [Directory; 16] {
    let mut path = [directory(bits, 1, 1); 16];
    for (place, n) in path.iter_mut().zip(1..17u8) {
        *place = directory(bits, n.into(), n);
    }
    path
}

// The groups 1 to 16 but one.
fn all_groups_but(left_out: u8) -> GroupSet {
    let mut groups = NO_GROUPS;
    for g in 1..17u8 {
        if g != left_out {
            insert(&mut groups, g);
        }
    }
    groups
}

// Whether the forms of a path admit the subject, in which all three must agree.
fn asked(rt: &impl Abort, path: &[Directory], subject: &Subject<'_>) -> Result<bool, Fail> {
    let plain: Trail = flatten(path)?;
    let conjunctive: Conjunctive = flatten(path)?;
    let disjunctive: Disjunctive = flatten(path)?;
    let admitted = plain.admits(subject);
    assert_eq!(rt; conjunctive.admits(subject), admitted);
    assert_eq!(rt; disjunctive.admits(subject), admitted);
    Ok(admitted)
}

// For each pattern: a stranger, a member of the group, the owner, the owner in the group.
const MAY: [[bool; 4]; 8] = [
    [false, false, false, false],
    [true, false, false, false],
    [false, true, false, false],
    [true, true, false, false],
    [false, false, true, true],
    [true, false, true, true],
    [false, true, true, true],
    [true, true, true, true],
];

#[test]
fn every_pattern_for_every_class(rt: HostRuntime) -> Result<(), Fail> {
    let mut members = NO_GROUPS;
    insert(&mut members, 9);
    for case in 0..32u8 {
        let path = [directory(case / 4, 7, 9)];
        let groups = if case % 2 == 1 { members } else { NO_GROUPS };
        let user = if case % 4 >= 2 { 7 } else { 8 };
        let expected = MAY[usize::from(case / 4)][usize::from(case % 4)];
        assert_eq!(rt;
            asked(
                &rt,
                &path,
                &Subject {
                    user,
                    groups: &groups,
                },
            )?,
            expected
        );
    }
    Ok(())
}

// Sixteen levels are narrowed, and the seventeenth is refused and changes nothing.
fn refuses_the_seventeenth<F: Form>(rt: &impl Abort, everyone: F) -> Result<(), Fail> {
    let mut form = everyone;
    for level in 0..16u8 {
        assert_eq!(rt; form.level(), level);
        form.narrow(&directory(7, 0, 0))?;
    }
    let closed = directory(0, 0, 0);
    assert!(rt; form.narrow(&closed).is_err());
    assert_eq!(rt; form.level(), 16);
    let subject = Subject {
        user: 5,
        groups: &NO_GROUPS,
    };
    assert!(rt; form.admits(&subject));
    Ok(())
}

#[test]
fn seventeenth_level(rt: HostRuntime) -> Result<(), Fail> {
    refuses_the_seventeenth(&rt, <Trail as Form>::everyone())?;
    refuses_the_seventeenth(&rt, <Conjunctive as Form>::everyone())?;
    refuses_the_seventeenth(&rt, <Disjunctive as Form>::everyone())?;
    let path = [directory(7, 0, 0); 17];
    let long: Result<Conjunctive, TooDeep> = flatten(&path);
    assert!(rt; long.is_err());
    Ok(())
}

// 001 for sixteen owners and groups: two clauses at each level, none of which covers another.
#[test]
fn most_clauses(rt: HostRuntime) -> Result<(), Fail> {
    let path = sixteen(1);
    let record: Conjunctive = flatten(&path)?;
    assert_eq!(rt; record.clauses.list.as_slice().len(), 32);
    let mut groups = NO_GROUPS;
    let free = Subject {
        user: 17,
        groups: &NO_GROUPS,
    };
    assert!(rt; asked(&rt, &path, &free)?);
    let owner = Subject {
        user: 16,
        groups: &NO_GROUPS,
    };
    assert!(rt; !asked(&rt, &path, &owner)?);
    insert(&mut groups, 1);
    let member = Subject {
        user: 17,
        groups: &groups,
    };
    assert!(rt; !asked(&rt, &path, &member)?);
    Ok(())
}

// 110 for sixteen owners and groups: each owner has a line that wants every group but its own.
#[test]
fn most_lines(rt: HostRuntime) -> Result<(), Fail> {
    let path = sixteen(6);
    let record: Disjunctive = flatten(&path)?;
    assert_eq!(rt; record.lines.table.as_slice().len(), 16);
    let groups = all_groups_but(5);
    let fifth = Subject {
        user: 5,
        groups: &groups,
    };
    assert!(rt; asked(&rt, &path, &fifth)?);
    let sixth = Subject {
        user: 6,
        groups: &groups,
    };
    assert!(rt; !asked(&rt, &path, &sixth)?);
    let all = all_groups_but(0);
    let stranger = Subject {
        user: 17,
        groups: &all,
    };
    assert!(rt; asked(&rt, &path, &stranger)?);
    Ok(())
}

// 011 for sixteen owners: each is shut out.
#[test]
fn most_shut_out(rt: HostRuntime) -> Result<(), Fail> {
    let path = sixteen(3);
    let record: Disjunctive = flatten(&path)?;
    match record.others {
        Some(others) => assert_eq!(rt; others.shut.as_slice().len(), 16),
        None => return Err(Fail::new("no open line")),
    }
    for user in 1..18u16 {
        let subject = Subject {
            user,
            groups: &NO_GROUPS,
        };
        assert_eq!(rt; asked(&rt, &path, &subject)?, user == 17);
    }
    Ok(())
}

// A path of few owners and groups, drawn from a number.
fn drawn(seed: u32) -> [Directory; 16] {
    let mut path = [directory(7, 0, 0); 16];
    let mut state = seed;
    for place in &mut path {
        state = state.wrapping_mul(1664525).wrapping_add(1013904223);
        let bits = (state >> 29) as u8;
        let owner = ((state >> 20) % 3) as u16;
        let group = ((state >> 10) % 3) as u8;
        // three of four directories let all but one class in, so that long paths admit some
        let open = if state % 8 < 6 { bits | 3 } else { bits };
        *place = directory(open, owner, group);
    }
    path
}

// The first levels of many long paths, asked by users in and out of the groups: the three forms agree.
#[test]
fn long_paths_agree(rt: HostRuntime) -> Result<(), Fail> {
    let mut admitted: u32 = 0;
    for case in 0..12288u32 {
        let path = drawn(case / 192);
        let depth = (case / 12 % 16) as usize + 1;
        let mut groups = NO_GROUPS;
        if case % 2 == 1 {
            insert(&mut groups, (case / 4 % 3) as u8);
        }
        let user = (case / 2 % 4) as u16;
        let subject = Subject {
            user,
            groups: &groups,
        };
        if asked(&rt, &path[0..depth], &subject)? {
            admitted = admitted.wrapping_add(1);
        }
    }
    assert!(rt; admitted > 1000 && admitted < 11000);
    Ok(())
}
