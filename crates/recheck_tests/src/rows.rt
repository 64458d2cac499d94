//! Small models with lines behind them.

use crate::saying::{both, said};
use std::alloc::Global;
use std::test::Fail;

const STANDING: &str =
    "MODULE main\nVAR x : boolean;\nASSIGN init(x) := FALSE; next(x) := x;\nINVARSPEC !x\n";

const TOGGLING: &str =
    "MODULE main\nVAR x : boolean;\nASSIGN init(x) := FALSE; next(x) := !x;\nINVARSPEC !x\n";

const TWO: &str =
    "MODULE main\nVAR x : boolean;\nASSIGN init(x) := FALSE; next(x) := x;\nINVARSPEC x\nINVARSPEC !x\n";

const UNASKED: &str = "MODULE main\nVAR x : boolean;\n";

// Its first item would fault where a value above 1 is counted up.
const RANGED: &str =
    "MODULE main\nVAR n : 0..2;\nASSIGN next(n) := case n = 2 : 0; TRUE : n + 1; esac;\nINVARSPEC n <= 2\n";

// Its first item faults where n is 2.
const FAULTY: &str = "MODULE main\nVAR n : 0..2;\nASSIGN next(n) := n + 1;\nINVARSPEC n <= 2\n";

// An element by an index that changes, and one by a constant.
const INDEXED: &str =
    "MODULE main\nVAR a : array -1..1 of 0..1; i : -1..1;\nASSIGN init(a[0]) := 1; next(a[0]) := a[-1];\nINVARSPEC a[i] < 2\nINVARSPEC a[0] = 1\n";

const UNKNOWN: &str = "MODULE main\nINVARSPEC x\n";

// A model, lines behind it, what is said, and the status.
type Row = (&'static str, &'static str, &'static str, u8);

const ROWS: [Row; 62] = [
    (STANDING, "", "-- spec 1 INVARSPEC has nothing shown\n", 2),
    (UNASKED, "", "", 0),
    (
        STANDING,
        "--% cert 1 spec 1 counter none\n--% clause -1 0\n--% part first 1\n--% step 0\n--% part kept 1\n--% step 0\n--% part safe 0\n--% step 0\n--% end\n",
        "-- spec 1 INVARSPEC is shown true\n",
        0,
    ),
    (
        STANDING,
        "--% cert 1 spec 1 counter none\n--% clause 1 0\n--% part first 1\n--% step 0\n--% part kept 1\n--% step 0\n--% part safe 0\n--% step 0\n--% end\n",
        "-- spec 1 INVARSPEC is rejected: part first 1\n",
        1,
    ),
    (
        STANDING,
        "--% cert 1 spec 1 counter none\n--% clause -1 0\n--% part first 1\n--% step 0\n--% part kept 1\n--% step 0\n--% part safe 0\n--% step 1 0\n--% end\n",
        "-- spec 1 INVARSPEC is rejected: part safe 0\n",
        1,
    ),
    (
        TOGGLING,
        "--% cert 1 spec 1 counter none\n--% clause -1 0\n--% part first 1\n--% step 0\n--% part kept 1\n--% step 0\n--% part safe 0\n--% step 0\n--% end\n",
        "-- spec 1 INVARSPEC is rejected: part kept 1\n",
        1,
    ),
    (
        STANDING,
        "--% cert 1 spec 1 counter none\n--% clause -9 0\n--% part first 1\n--% step 0\n--% part kept 1\n--% step 0\n--% part safe 0\n--% step 0\n--% end\n",
        "-- spec 1 INVARSPEC is rejected: part first 1\n",
        1,
    ),
    (
        STANDING,
        "--% cert 1 spec 1 counter none\n--% clause -1 0\n--% part first 1\n--% step 0\n--% part kept 1\n--% step 0\n--% part safe 0\n--% step 99 0\n--% step 0\n--% end\n",
        "-- spec 1 INVARSPEC is rejected: part safe 0\n",
        1,
    ),
    (
        STANDING,
        "--% cert 1 spec 1 counter none\n--% part safe 0\n--% step 0\n--% end\n",
        "-- spec 1 INVARSPEC is rejected: part safe 0\n",
        1,
    ),
    (
        STANDING,
        "--% cert 1 spec 1 counter none\n--% clause -1 0\n--% part first 1\n--% step 0\n--% part safe 0\n--% step 0\n--% end\n",
        "-- spec 1 INVARSPEC is rejected: part kept 1\n",
        1,
    ),
    (
        STANDING,
        "--% cert 1 spec 1 counter none\n--% clause -1 0\n--% part kept 1\n--% step 0\n--% end\n",
        "-- spec 1 INVARSPEC is rejected: part first 1\n",
        1,
    ),
    (
        STANDING,
        "--% cert 1 spec 1 counter 2\n--% clause -1 0\n--% part first 1\n--% step 0\n--% part kept 1\n--% step 0\n--% part safe 0\n--% step 0\n--% end\n",
        "-- spec 1 INVARSPEC is rejected: part safe 0\n",
        1,
    ),
    (
        STANDING,
        "--% cert 1 spec 1 counter 0\n--% clause 1 0\n--% part first 1\n--% step 0\n--% part kept 1\n--% step 0\n--% part safe 0\n--% step 0\n--% end\n",
        "-- spec 1 INVARSPEC is rejected: part safe 0\n",
        1,
    ),
    (
        STANDING,
        "--% cert 2 spec 1 counter none\n--% clause -1 0\n--% part first 1\n--% step 0 0\n--% part kept 1\n--% step 0 0\n--% part safe 0\n--% step 0 0\n--% end\n",
        "-- spec 1 INVARSPEC is rejected: part first 1\n",
        1,
    ),
    (
        STANDING,
        "--% clause -1 0\n",
        "-- refused 701 BadCertificate at 5:1\n",
        3,
    ),
    (
        STANDING,
        "--% cert 1 spec 2 counter none\n",
        "-- refused 701 BadCertificate at 5:1\n",
        3,
    ),
    (
        STANDING,
        "--% cert 2 spec 1 counter none\n--% clause -1 0\n--% part first 1\n--% step 0\n--% part kept 1\n--% step 0\n--% part safe 0\n--% step 0\n--% end\n",
        "-- refused 701 BadCertificate at 8:1\n",
        3,
    ),
    (
        STANDING,
        "--% cert 3 spec 1 counter none\n--% clause -1 0\n--% part first 1\n--% step 0\n--% part kept 1\n--% step 0\n--% part safe 0\n--% step 0\n--% end\n",
        "-- refused 701 BadCertificate at 5:1\n",
        3,
    ),
    (
        STANDING,
        "--% cert 1 spec 1 counter 65\n--% clause -1 0\n--% part first 1\n--% step 0\n--% part kept 1\n--% step 0\n--% part safe 0\n--% step 0\n--% end\n",
        "-- refused 701 BadCertificate at 5:1\n",
        3,
    ),
    (
        STANDING,
        "--% cert 1 spec 1 counter none\n--% clause -1 0\n--% part first 1\n--% step 0\n--% part kept 1\n--% step 0\n--% part safe 0\n--% step 0\n",
        "-- refused 701 BadCertificate at 12:1\n",
        3,
    ),
    (
        STANDING,
        "--% cert 1 spec 1 counter none\n--% clause -1 0\n--% part first 1\n--% step 0\n--% part kept 1\n--% step 0\n--% part safe 0\n--% step 0\n--% end\n--% cert 1 spec 1 counter none\n--% clause -1 0\n--% part first 1\n--% step 0\n--% part kept 1\n--% step 0\n--% part safe 0\n--% step 0\n--% end\n",
        "-- refused 701 BadCertificate at 14:1\n",
        3,
    ),
    (
        STANDING,
        "--% cert 1 spec 1 counter none\n--% clause -9223372036854775808 0\n--% part first 1\n--% step 0\n--% part kept 1\n--% step 0\n--% part safe 0\n--% step 0\n--% end\n",
        "-- refused 701 BadCertificate at 6:1\n",
        3,
    ),
    (
        TOGGLING,
        "--@ spec 1\n--@ state 0: x = FALSE\n--@ state 1: x = TRUE\n",
        "-- spec 1 INVARSPEC is shown false\n",
        0,
    ),
    (
        TOGGLING,
        "--@ spec 1\n--@ state 0: x = FALSE\n--@ state 1: x = FALSE\n",
        "-- spec 1 INVARSPEC is rejected: trace step 0\n",
        1,
    ),
    (TOGGLING, "", "-- spec 1 INVARSPEC has nothing shown\n", 2),
    (
        TOGGLING,
        "--@ spec 1\n--@ state 0: x = 7\n",
        "-- spec 1 INVARSPEC is rejected: trace values 0\n",
        1,
    ),
    (
        TOGGLING,
        "--@ spec 1\n",
        "-- spec 1 INVARSPEC is rejected: trace values 0\n",
        1,
    ),
    (
        TOGGLING,
        "--@ spec 1\n--@ state 0: x = FALSE\n--@ state 1: x = TRUE\n--@ loop 0\n",
        "-- spec 1 INVARSPEC is rejected: trace loop 0\n",
        1,
    ),
    (
        TOGGLING,
        "--@ spec 1\n--@ state 0: x = FALSE\n",
        "-- spec 1 INVARSPEC is rejected: trace spec 0\n",
        1,
    ),
    (
        TOGGLING,
        "--@ spec 1\n--@ state 1: x = TRUE\n",
        "-- refused 702 BadTrace at 6:1\n",
        3,
    ),
    (
        TOGGLING,
        "--@ spec 1\n--@ state 0: x = FALSE\n--@ state 1: x = TRUE\n--@ spec 1\n--@ state 0: x = FALSE\n--@ state 1: x = TRUE\n",
        "-- refused 702 BadTrace at 8:1\n",
        3,
    ),
    (
        TOGGLING,
        "--@ spec 2\n",
        "-- refused 702 BadTrace at 5:1\n",
        3,
    ),
    (
        TOGGLING,
        "--@ spec 1\n--@ state 0: x = é\n",
        "-- refused 702 BadTrace at 6:1\n",
        3,
    ),
    (
        TOGGLING,
        "-- a comment: é\n--@ spec 1\n--@ state 0: x = FALSE\n--@ state 1: x = TRUE\n",
        "-- spec 1 INVARSPEC is shown false\n",
        0,
    ),
    (
        TOGGLING,
        "--% cert 1 spec 1 counter none\n--% clause -1 0\n--% part first 1\n--% step 0\n--% part kept 1\n--% step 0\n--% part safe 0\n--% step 0\n--% end\n--@ spec 1\n--@ state 0: x = FALSE\n--@ state 1: x = TRUE\n",
        "-- spec 1 INVARSPEC is shown false\n",
        0,
    ),
    (
        STANDING,
        "--% cert 1 spec 1 counter none\n--% clause -1 0\n--% part first 1\n--% step 0\n--% part kept 1\n--% step 0\n--% part safe 0\n--% step 0\n--% end\n--@ spec 1\n--@ state 0: x = FALSE\n",
        "-- spec 1 INVARSPEC is rejected: trace spec 0\n",
        1,
    ),
    (
        STANDING,
        "--@ spec 9\n--% end\n",
        "-- refused 702 BadTrace at 5:1\n",
        3,
    ),
    (
        STANDING,
        "--% end\n--@ spec 9\n",
        "-- refused 701 BadCertificate at 5:1\n",
        3,
    ),
    (
        STANDING,
        "--@ spec 1\n--@ state 0: x = FALSE\n--@ state 1: x = TRUE\n--% end\n--@ spec 1\n",
        "-- refused 701 BadCertificate at 8:1\n",
        3,
    ),
    (
        STANDING,
        "--% cert 1 spec 1 counter none\n--@ spec 9\n",
        "-- refused 701 BadCertificate at 5:1\n",
        3,
    ),
    (
        UNKNOWN,
        "--% end\n--@ spec 9\n",
        "-- refused 304 UnknownName at 2:11: x\n",
        3,
    ),
    (
        STANDING,
        "--% sound\n--% part item 0\n--% step 0\n--% end\n--% cert 1 spec 1 counter none\n--% clause -1 0\n--% part first 1\n--% step 0\n--% part kept 1\n--% step 0\n--% part safe 0\n--% step 0\n--% end\n",
        "-- spec 1 INVARSPEC is shown true\n",
        0,
    ),
    (
        STANDING,
        "--% sound\n--% part item 3\n--% end\n",
        "-- refused 701 BadCertificate at 6:1\n",
        3,
    ),
    (
        STANDING,
        "--% sound\n--% end\n--% sound\n",
        "-- refused 701 BadCertificate at 7:1\n",
        3,
    ),
    (UNASKED, "--% sound\n--% end\n", "", 0),
    (
        STANDING,
        "/--\n--% cert 1 spec 1 counter none\n--% clause -1 0\n--% part first 1\n--% step 0\n--% part kept 1\n--% step 0\n--% part safe 0\n--% step 0\n--% end\n--/\n",
        "-- spec 1 INVARSPEC is shown true\n",
        0,
    ),
    (
        STANDING,
        " --% cert 1 spec 1 counter none\n",
        "-- spec 1 INVARSPEC has nothing shown\n",
        2,
    ),
    (
        TWO,
        "--% cert 1 spec 2 counter none\n--% clause -1 0\n--% part first 1\n--% step 0\n--% part kept 1\n--% step 0\n--% part safe 0\n--% step 0\n--% end\n",
        "-- spec 1 INVARSPEC has nothing shown\n-- spec 2 INVARSPEC is shown true\n",
        2,
    ),
    (
        TWO,
        "--% cert 1 spec 2 counter none\n--% clause -1 0\n--% part first 1\n--% step 0\n--% part kept 1\n--% step 0\n--% part safe 0\n--% step 0\n--% end\n--@ spec 1\n--@ state 0: x = FALSE\n",
        "-- spec 1 INVARSPEC is shown false\n-- spec 2 INVARSPEC is shown true\n",
        0,
    ),
    (
        TWO,
        "--@ spec 1\n--@ state 0: x = TRUE\n",
        "-- spec 1 INVARSPEC is rejected: trace first 0\n-- spec 2 INVARSPEC has nothing shown\n",
        1,
    ),
    (
        TWO,
        "--% cert 1 spec 1 counter none\n--% clause -1 0\n--% part first 1\n--% step 0\n--% part kept 1\n--% step 0\n--% part safe 0\n--% step 0\n--% end\n",
        "-- spec 1 INVARSPEC is rejected: part safe 0\n-- spec 2 INVARSPEC has nothing shown\n",
        1,
    ),
    (RANGED, "", "-- spec 1 INVARSPEC has nothing shown\n", 2),
    (
        RANGED,
        "--% cert 1 spec 1 counter none\n--% part safe 0\n--% step 0\n--% end\n",
        "-- spec 1 INVARSPEC is rejected: part item 0\n",
        1,
    ),
    (
        RANGED,
        "--% sound\n--% part item 0\n--% step 1 2 0\n--% step 1 -2 0\n--% step 1 0\n--% step -1 2 0\n--% step 0\n--% end\n--% cert 1 spec 1 counter none\n--% part safe 0\n--% step 0\n--% end\n",
        "-- spec 1 INVARSPEC is shown true\n",
        0,
    ),
    (
        RANGED,
        "--% sound\n--% part item 0\n--% step 1 2 0\n--% step 1 -2 0\n--% step 1 0\n--% step -1 2 0\n--% end\n--% cert 1 spec 1 counter none\n--% part safe 0\n--% step 0\n--% end\n",
        "-- spec 1 INVARSPEC is rejected: part item 0\n",
        1,
    ),
    (
        RANGED,
        "--% sound\n--% part item 1\n--% step 0\n--% end\n--% cert 1 spec 1 counter 2\n--% part safe 0\n--% step 0\n--% end\n",
        "-- spec 1 INVARSPEC is rejected: part item 0\n",
        1,
    ),
    (
        RANGED,
        "--% sound\n--% part item 0\n--% step 1 2 0\n--% step 1 -2 0\n--% step 1 0\n--% step -1 2 0\n--% step 0\n--% end\n--% cert 1 spec 1 counter 2\n--% part safe 0\n--% step 0\n--% end\n",
        "-- spec 1 INVARSPEC is rejected: part safe 0\n",
        1,
    ),
    (
        RANGED,
        "--% cert 1 spec 1 counter none\n--% part safe 0\n--% step 0\n--% end\n--@ spec 1\n--@ state 0: n = 2\n",
        "-- spec 1 INVARSPEC is rejected: trace spec 0\n",
        1,
    ),
    (
        FAULTY,
        "--% sound\n--% part item 0\n--% step 1 2 0\n--% step 1 -2 0\n--% step 1 0\n--% step -1 2 0\n--% step 0\n--% end\n--% cert 1 spec 1 counter none\n--% part safe 0\n--% step 0\n--% end\n",
        "-- spec 1 INVARSPEC is rejected: part item 0\n",
        1,
    ),
    (
        FAULTY,
        "--@ spec 1\n--@ state 0: n = 2\n--@ state 1: n = 0\n",
        "-- spec 1 INVARSPEC is rejected: trace step 0\n",
        1,
    ),
    // The first specification is the third item, and would fault where the index is another.
    (
        INDEXED,
        "--% cert 1 spec 1 counter none\n--% part safe 0\n--% step 0\n--% end\n--@ spec 2\n--@ state 0: a[-1] = 0, a[0] = 1, a[1] = 0, i = 1\n--@ state 1: a[-1] = 1, a[0] = 0, a[1] = 1, i = -1\n",
        "-- spec 1 INVARSPEC is rejected: part item 2\n-- spec 2 INVARSPEC is shown false\n",
        1,
    ),
    // Elements stand in their order.
    (
        INDEXED,
        "--@ spec 2\n--@ state 0: a[-1] = 0, a[0] = 1, a[1] = 0, i = 1\n--@ state 1: a[-1] = 1, a[1] = 1, a[0] = 0, i = -1\n",
        "-- spec 1 INVARSPEC has nothing shown\n-- spec 2 INVARSPEC is rejected: trace values 1\n",
        1,
    ),
];

// Whether this is said of the lines behind the model.
fn says(alloc: Global, row: &Row) -> Result<bool, Fail> {
    let (model, lines, wanted, status) = *row;
    let text = both(alloc, model, lines)?;
    let found = said(alloc, &text, false)?;
    Ok(found.status == status && found.text.as_str() == wanted)
}

// The number of the first row of which something else is said.
fn first_wrong(alloc: Global) -> Result<Option<usize>, Fail> {
    for n in 0..ROWS.len() {
        if !says(alloc, &ROWS[n])? {
            return Ok(Some(n));
        }
    }
    Ok(None)
}

#[test]
fn rows_are_said(rt: HostRuntime) -> Result<(), Fail> {
    assert_eq!(rt; first_wrong(rt.alloc())?, None);
    Ok(())
}
