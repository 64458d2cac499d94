//! The model of a ring through the top call: what is printed of it, whatever the source holds.
use crate::reports::{Case, NONE, first_wrong, prints};
use std::test::Fail;

// No model: it would be refused, if it were read.
const UNREAD: &str = "@";

const USAGE: &str = "-- usage: smvcheck check | recheck | flat | self N SEED\n";

const SMALLEST: &str =
    "-- model slots 2 items 4\n-- spec 1 INVARSPEC is true\n-- spec 2 LTLSPEC is true\n";

const CASES: [Case; 21] = [
    (
        "self 4 7",
        "",
        "-- model slots 4 items 8\n-- spec 1 INVARSPEC is true\n-- spec 2 LTLSPEC is true\n",
        0,
    ),
    ("self 2 5", UNREAD, SMALLEST, 0),
    // Numbers are read as those of options are.
    ("self +2 005", UNREAD, SMALLEST, 0),
    ("self -- 2 0", UNREAD, SMALLEST, 0),
    ("self 13 0", UNREAD, USAGE, 4),
    ("self 1 0", UNREAD, USAGE, 4),
    ("self 2 4294967296", UNREAD, USAGE, 4),
    ("self 2 -1", UNREAD, USAGE, 4),
    ("self 2 x", UNREAD, USAGE, 4),
    ("self 2", UNREAD, USAGE, 4),
    ("self", UNREAD, USAGE, 4),
    ("self 2 5 7", UNREAD, USAGE, 4),
    ("self 2 5 --cert", UNREAD, USAGE, 4),
    ("self 2 5 --conflicts 7", UNREAD, USAGE, 4),
    ("self 2 5 --workers 3", UNREAD, SMALLEST, 0),
    ("self --workers=2 2 5", UNREAD, SMALLEST, 0),
    ("self 2 5 --workers 0", UNREAD, USAGE, 4),
    ("self 2 5 --workers 65", UNREAD, USAGE, 4),
    ("self 2 5 --workers", UNREAD, USAGE, 4),
    ("check 2 5", UNREAD, USAGE, 4),
    ("self 2 5 check", UNREAD, USAGE, 4),
];

#[test]
fn rings(rt: HostRuntime) -> Result<(), Fail> {
    let wrong = first_wrong(&rt, rt.alloc(), &CASES)?;
    assert_eq!(rt; wrong, None);
    Ok(())
}

#[test]
fn the_largest_ring(rt: HostRuntime) -> Result<(), Fail> {
    // The line with its numbers is written before any record is made: here the second write fails.
    assert!(rt;
        prints(
            &rt,
            rt.alloc(),
            &["self", "12", "4294967295"],
            UNREAD.as_bytes(),
            100,
            NONE,
            1,
            b"-- model slots 12 items 24\n".as_slice(),
            6
        )?
    );
    Ok(())
}

#[test]
fn nothing_is_read(rt: HostRuntime) -> Result<(), Fail> {
    // The first read would fail.
    assert!(rt;
        prints(
            &rt,
            rt.alloc(),
            &["self", "2", "5"],
            UNREAD.as_bytes(),
            100,
            0,
            NONE,
            SMALLEST.as_bytes(),
            0
        )?
    );
    Ok(())
}
