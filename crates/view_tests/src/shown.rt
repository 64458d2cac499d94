//! Traces in each form.

use crate::saying::is_written;
use std::test::Fail;

const RUN: &str =
    "MODULE main -- a model may stand before its report\n-- spec 2 INVARSPEC is false\n--@ spec 2\n--@ state 0: busy = FALSE, n = 0ud4_3, c = 5, p = idle\n--@ input 0: go = TRUE\n--@ state 1: busy = TRUE, n = 0ud4_15, c = -6, p = idle\n";

const LASSO: &str =
    "--@ spec 3\n--@ state 0: a.x = FALSE\n--@ state 1: a.x = TRUE\n--@ state 2: a.x = FALSE\n--@ loop 1\n";

const BOTH: &str =
    "--@ spec 1\n--@ state 0: x = TRUE\n-- spec 2 LTLSPEC is true\n--@ spec 3\n--@ state 0: a.x = FALSE\n--@ state 1: a.x = TRUE\n--@ state 2: a.x = FALSE\n--@ loop 1\n";

const RUN_TABLE: &str =
    "spec 2       0         1\nbusy     FALSE     *TRUE\nn       0ud4_3  *0ud4_15\nc            5       *-6\np         idle      idle\ngo        TRUE         -\n";

const LASSO_TABLE: &str = "spec 3      0     [1      2]\na.x     FALSE  *TRUE  *FALSE\n";

const BOTH_TABLES: &str =
    "spec 1     0\nx       TRUE\n\nspec 3      0     [1      2]\na.x     FALSE  *TRUE  *FALSE\n";

#[test]
fn traces_are_tables(rt: HostRuntime) -> Result<(), Fail> {
    let alloc = rt.alloc();
    assert!(rt; is_written(alloc, &["table"], RUN, 0, RUN_TABLE)?);
    assert!(rt; is_written(alloc, &["table"], BOTH, 0, BOTH_TABLES)?);
    assert!(rt; is_written(alloc, &["table", "3"], BOTH, 0, LASSO_TABLE)?);
    Ok(())
}

const RUN_DUMP: &str =
    "$version smvtrace $end\n$timescale 1 ns $end\n$scope module spec_2 $end\n$var wire 1 s0 busy $end\n$var wire 4 s1 n $end\n$var real 64 s2 c $end\n$var string 1 s3 p $end\n$var wire 1 i0 go $end\n$upscope $end\n$enddefinitions $end\n#0\n0s0\nb0011 s1\nr5 s2\nsidle s3\n1i0\n#1\n1s0\nb1111 s1\nr-6 s2\nxi0\n#2\n";

const LASSO_DUMP: &str =
    "$version smvtrace $end\n$timescale 1 ns $end\n$scope module spec_3 $end\n$var wire 2 loop loop $end\n$var wire 1 s0 a.x $end\n$upscope $end\n$enddefinitions $end\n#0\nb0 loop\n0s0\n#1\nb1 loop\n1s0\n#2\n0s0\n#3\nb10 loop\n1s0\n#4\n0s0\n#5\n";

#[test]
fn traces_are_dumps(rt: HostRuntime) -> Result<(), Fail> {
    let alloc = rt.alloc();
    assert!(rt; is_written(alloc, &["vcd"], RUN, 0, RUN_DUMP)?);
    assert!(rt; is_written(alloc, &["vcd"], LASSO, 0, LASSO_DUMP)?);
    assert!(rt; is_written(alloc, &["vcd", "3"], BOTH, 0, LASSO_DUMP)?);
    Ok(())
}

const PICTURE: &str =
    "<svg xmlns='http://www.w3.org/2000/svg' width='136' height='56'>\n<style>text{font:13px monospace}path{fill:none;stroke:#036}</style>\n<text x='8' y='17'>spec 1</text>\n<text x='78' y='17'>0</text>\n<text x='8' y='41'>x</text>\n<path d='M72 28V28H128'/>\n</svg>\n";

#[test]
fn traces_are_pictures(rt: HostRuntime) -> Result<(), Fail> {
    assert!(rt; is_written(rt.alloc(), &["svg", "1"], BOTH, 0, PICTURE)?);
    Ok(())
}
