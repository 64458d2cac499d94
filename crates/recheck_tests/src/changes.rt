//! Certificates that are changed line by line and literal by literal, and certificates that are printed again.

use crate::saying::{both, said};
use std::alloc::Global;
use std::test::Fail;

const MODEL: &str =
    "MODULE main\nVAR x : boolean;\nASSIGN init(x) := FALSE; next(x) := x;\nINVARSPEC !x\n";

const LINES: [&str; 9] = [
    "--% cert 1 spec 1 counter none\n",
    "--% clause -1 0\n",
    "--% part first 1\n",
    "--% step 0\n",
    "--% part kept 1\n",
    "--% step 0\n",
    "--% part safe 0\n",
    "--% step 0\n",
    "--% end\n",
];

const TRUE: &str = "-- spec 1 INVARSPEC is shown true\n";

// A change of one line: it is left out, given twice, or put behind the next.
#[derive(Clone, Copy, Debug, PartialEq, Eq)]
enum Change {
    Deleted,
    Doubled,
    Swapped,
}

// A letter for each line that is changed so: the text is refused, the certificate is rejected, or it is shown true. A
// step that is given twice follows twice.
const TABLE: [(Change, &[u8]); 3] = [
    (Change::Deleted, b"RRRPPPPPR"),
    (Change::Doubled, b"RPRTRTRTR"),
    (Change::Swapped, b"RRRPPPPR"),
];

// The number of the line that stands at this place, where line k is changed.
fn line_at(change: Change, k: usize, place: usize) -> usize {
    match change {
        Change::Deleted => if place < k {
            place
        } else {
            place.saturating_add(1)
        },
        Change::Doubled => if place <= k {
            place
        } else {
            place.saturating_sub(1)
        },
        Change::Swapped => if place == k {
            k.saturating_add(1)
        } else if place == k.saturating_add(1) {
            k
        } else {
            place
        },
    }
}

// The model with the changed lines behind it.
fn changed(alloc: Global, change: Change, k: usize) -> Result<Vec<u8>, Fail> {
    let mut text = MODEL.as_bytes().to_vec(alloc)?;
    for place in 0..10usize {
        if let Some(line) = LINES.get(line_at(change, k, place)) {
            text.extend_from_slice(line.as_bytes())?;
        }
    }
    Ok(text)
}

// What is said of a text, as a letter.
fn letter(alloc: Global, text: &[u8]) -> Result<u8, Fail> {
    let found = said(alloc, text, false)?;
    if found.status == 3 {
        return Ok(b'R');
    }
    Ok(if found.text.as_str() == TRUE {
        b'T'
    } else {
        b'P'
    })
}

// The first line whose change is answered otherwise.
fn first_wrong(
    alloc: Global,
    change: Change,
    wanted: &[u8],
) -> Result<Option<(Change, usize)>, Fail> {
    for (k, letter_wanted) in wanted.iter().enumerate() {
        let text = changed(alloc, change, k)?;
        if letter(alloc, &text)? != *letter_wanted {
            return Ok(Some((change, k)));
        }
    }
    Ok(None)
}

#[test]
fn changed_lines_are_judged(rt: HostRuntime) -> Result<(), Fail> {
    for (change, wanted) in TABLE {
        assert_eq!(rt; first_wrong(rt.alloc(), change, wanted)?, None);
    }
    Ok(())
}

// Four bits that stay TRUE; the claim speaks of the last two.
const FIXED: &str =
    "MODULE main\nFROZENVAR a : boolean; b : boolean; c : boolean; d : boolean;\nINIT a & b & c & d\nINVARSPEC c & d\n";

const FIXED_LINES: [&str; 31] = [
    "--% cert 1 spec 1 counter none\n",
    "--% clause 1 2 0\n",
    "--% clause 1 -2 0\n",
    "--% clause 3 4 0\n",
    "--% clause 3 -4 0\n",
    "--% clause -3 4 0\n",
    "--% part first 1\n",
    "--% step 0\n",
    "--% part first 2\n",
    "--% step 0\n",
    "--% part first 3\n",
    "--% step 0\n",
    "--% part first 4\n",
    "--% step 0\n",
    "--% part first 5\n",
    "--% step 0\n",
    "--% part kept 1\n",
    "--% step 0\n",
    "--% part kept 2\n",
    "--% step 0\n",
    "--% part kept 3\n",
    "--% step 0\n",
    "--% part kept 4\n",
    "--% step 0\n",
    "--% part kept 5\n",
    "--% step 0\n",
    "--% part safe 0\n",
    "--% step 1 0\n",
    "--% step 3 0\n",
    "--% step 0\n",
    "--% end\n",
];

const UNSAFE: &str = "-- spec 1 INVARSPEC is rejected: part safe 0\n";

// The number of a line, the line with one literal negated in its place, and what is said. With a clause of two literals
// gone from either pair, no step follows by units alone. The last change is sound: from bit 3 the fourth one follows
// and its negation.
const NEGATED: [(usize, &str, &str); 13] = [
    (0, "--% cert 1 spec 1 counter none\n", TRUE),
    (1, "--% clause -1 2 0\n", UNSAFE),
    (1, "--% clause 1 -2 0\n", UNSAFE),
    (
        2,
        "--% clause -1 -2 0\n",
        "-- spec 1 INVARSPEC is rejected: part first 2\n",
    ),
    (2, "--% clause 1 2 0\n", UNSAFE),
    (3, "--% clause -3 4 0\n", UNSAFE),
    (3, "--% clause 3 -4 0\n", UNSAFE),
    (
        4,
        "--% clause -3 -4 0\n",
        "-- spec 1 INVARSPEC is rejected: part first 4\n",
    ),
    (4, "--% clause 3 4 0\n", UNSAFE),
    (5, "--% clause 3 4 0\n", UNSAFE),
    (
        5,
        "--% clause -3 -4 0\n",
        "-- spec 1 INVARSPEC is rejected: part first 5\n",
    ),
    (27, "--% step -1 0\n", UNSAFE),
    (28, "--% step -3 0\n", TRUE),
];

// The model and its certificate with this line in the place of the one of this number.
fn with_line(alloc: Global, number: usize, line: &str) -> Result<Vec<u8>, Fail> {
    let mut text = FIXED.as_bytes().to_vec(alloc)?;
    for (k, kept) in FIXED_LINES.iter().enumerate() {
        let next = if k == number { line } else { *kept };
        text.extend_from_slice(next.as_bytes())?;
    }
    Ok(text)
}

// The first row that is answered otherwise.
fn wrong_negation(alloc: Global) -> Result<Option<usize>, Fail> {
    for (row, (number, line, wanted)) in NEGATED.iter().enumerate() {
        let text = with_line(alloc, *number, line)?;
        let found = said(alloc, &text, false)?;
        if found.text.as_str() != *wanted {
            return Ok(Some(row));
        }
    }
    Ok(None)
}

#[test]
fn negated_literals_are_judged(rt: HostRuntime) -> Result<(), Fail> {
    assert_eq!(rt; wrong_negation(rt.alloc())?, None);
    Ok(())
}

const SOUND: &str = "--% sound\n--% part item 0\n--% step 0\n--% end\n";

const PLAIN: &str =
    "--% cert 1 spec 1 counter none\n--% clause -1 0\n--% part first 1\n--% step 0\n--% part kept 1\n--% step 0\n--% part safe 0\n--% step 0\n--% end\n";

// What is printed again of the text of a model with these lines behind it; and what is said of that behind the bare
// model.
fn again(alloc: Global, lines: &str) -> Result<(Vec<u8>, Vec<u8>), Fail> {
    let text = both(alloc, MODEL, lines)?;
    let first = said(alloc, &text, true)?;
    let text = both(alloc, MODEL, first.text.as_str())?;
    let second = said(alloc, &text, false)?;
    Ok((
        first.text.as_str().as_bytes().to_vec(alloc)?,
        second.text.as_str().as_bytes().to_vec(alloc)?,
    ))
}

const HINTED: &str =
    "-- spec 1 INVARSPEC is shown true\n--% cert 2 spec 1 counter none\n--% clause -1 0\n--% part first 1\n--% step 0 1 2 0\n--% part kept 1\n--% step 0 1 4 2 0\n--% part safe 0\n--% step 0 1 2 0\n--% end\n";

#[test]
fn certificates_are_printed_again(rt: HostRuntime) -> Result<(), Fail> {
    let (first, second) = again(rt.alloc(), PLAIN)?;
    assert_eq!(rt; first.as_slice(), HINTED.as_bytes());
    assert_eq!(rt; second.as_slice(), TRUE.as_bytes());
    Ok(())
}

#[test]
fn a_sound_block_is_printed_again(rt: HostRuntime) -> Result<(), Fail> {
    let (first, second) = again(rt.alloc(), SOUND)?;
    assert_eq!(rt;
        first.as_slice(),
        "--% sound\n--% part item 0\n--% step 0\n--% end\n-- spec 1 INVARSPEC has nothing shown\n".as_bytes()
    );
    assert_eq!(rt;
        second.as_slice(),
        "-- spec 1 INVARSPEC has nothing shown\n".as_bytes()
    );
    Ok(())
}

const RANGED: &str =
    "MODULE main\nVAR n : 0..2;\nASSIGN next(n) := case n = 2 : 0; TRUE : n + 1; esac;\nINVARSPEC n <= 2\n";

const RANGED_SOUND: &str =
    "--% sound\n--% part item 0\n--% step 1 2 0\n--% step 1 -2 0\n--% step 1 0\n--% step -1 2 0\n--% step 0\n--% end\n";

// What is said of a model whose items are asked about, with these lines behind it, where accepted blocks are printed
// again.
fn ranged_again(alloc: Global, lines: &str) -> Result<Vec<u8>, Fail> {
    let text = both(alloc, RANGED, lines)?;
    let found = said(alloc, &text, true)?;
    Ok(found.text.as_str().as_bytes().to_vec(alloc)?)
}

#[test]
fn an_accepted_sound_block_is_printed_again(rt: HostRuntime) -> Result<(), Fail> {
    let found = ranged_again(rt.alloc(), RANGED_SOUND)?;
    assert_eq!(rt;
        found.as_slice(),
        "--% sound\n--% part item 0\n--% step 1 2 0\n--% step 1 -2 0\n--% step 1 0\n--% step -1 2 0\n--% step 0\n--% end\n-- spec 1 INVARSPEC has nothing shown\n".as_bytes()
    );
    Ok(())
}

#[test]
fn a_rejected_sound_block_is_not_printed_again(rt: HostRuntime) -> Result<(), Fail> {
    let found = ranged_again(
        rt.alloc(),
        "--% sound\n--% part item 0\n--% step 1 2 0\n--% end\n",
    )?;
    assert_eq!(rt;
        found.as_slice(),
        "-- spec 1 INVARSPEC has nothing shown\n".as_bytes()
    );
    Ok(())
}
