//! Traces as pictures (SVG 1.1).

ghost use Rattle.std.specs.Prelude.{◌≡◌, ◌+◌, ◌*◌, ◌++◌, ◌<◌, ◌≤◌, ◌^◌, length, string_bytes, IfOk, OnOk};
ghost use Rattle.std.specs.Option.{option_copied};
ghost use Rattle.std.specs.Str.{chars};
ghost use Rattle.trace_lines.specs.Reading.{head_row};
ghost use Rattle.trace_view.specs.Svg as svg;
ghost use Rattle.trace_table.specs.Table.{time, widths};

use plain_text::Text;
use sqlite_items::Items;
use std::alloc::{AllocError, Global};
use std::fmt::Write;
use trace_lines::{Binding, Trace, head_row};
use trace_table::{
    Kind, column_kind, name_width, shown, time, title, value_at, value_before, widths,
};

/// Where columns begin, and how wide one is.
#[derive(Clone, Copy, Debug)]
pub struct Grid {
    pub left: u16,
    pub step: u16,
}

fn characters(alloc: Global, text: &str) -> Result<Vec<char>, AllocError>
    ensures { IfOk result (λ v. v.items ≡ chars text.now) }
{
    text.chars().collect(alloc)
}

fn write_char(out: &mut String, c: char) -> Result<(), AllocError>
    ensures { OnOk result (string_bytes out.new ≡ string_bytes out.old ++ svg.escaped_char c) }
{
    if c == '&' {
        out.push_str("&amp;")
    } else if c == '<' {
        out.push_str("&lt;")
    } else if c == '>' {
        out.push_str("&gt;")
    } else {
        out.push(c)
    }
}

fn write_chars(out: &mut String, chars: &[char]) -> Result<(), AllocError>
    ensures { OnOk result (string_bytes out.new ≡ string_bytes out.old ++ svg.escaped_chars chars.now) }
{
    for c in chars {
        write_char(out, *c)?;
    }
    Ok(())
}

fn write_escaped(alloc: Global, out: &mut String, text: &str) -> Result<(), AllocError>
    ensures { OnOk result (string_bytes out.new ≡ string_bytes out.old ++ svg.escaped text.now) }
{
    let chars = characters(alloc, text)?;
    write_chars(out, &chars)
}

fn write_text(
    alloc: Global,
    out: &mut String,
    x: u128,
    y: u128,
    text: &str,
) -> Result<(), AllocError>
    ensures { OnOk result (string_bytes out.new ≡ string_bytes out.old ++ svg.text_at x y text.now) }
{
    write!(out, "<text x='{x}' y='{y}'>")?;
    write_escaped(alloc, out, text)?;
    out.push_str("</text>\n")
}

fn write_shade(out: &mut String, x: u128, width: u128, height: u128) -> Result<(), AllocError>
    ensures { OnOk result (string_bytes out.new ≡ string_bytes out.old ++ svg.shade x width height) }
{
    write!(
        out,
        "<rect x='{x}' width='{width}' height='{height}' fill='#fd8'/>\n"
    )
}

fn widest_of(widths: &[usize]) -> usize
    ensures { result ≡ svg.widest_of widths.now }
{
    let mut most = 0;
    for w in widths {
        most = most.max(*w);
    }
    most
}

fn units(width: usize) -> u16
    ensures { result ≡ svg.units width }
{
    24 + 8 * width.min(100) as u16
}

fn grid_of(alloc: Global, trace: &Trace) -> Result<Grid, AllocError>
    ensures { IfOk result (λ g. g ≡ svg.grid_of trace.now) }
{
    let first = name_width(alloc, trace)?;
    let widths = widths(alloc, trace)?;
    Ok(Grid {
        left: units(first),
        step: units(widest_of(&widths)),
    })
}

// The width of so many columns.
fn span(step: u16, count: usize) -> u128
    ensures width { result ≡ step * count }
    ensures small { result < 2 ^ 80 }
{
    step as u128 * count as u128
}

// Where a time begins.
fn x_of(grid: Grid, i: usize) -> u128
    ensures place { result ≡ svg.x_of grid i }
    ensures small { result < 2 ^ 81 }
{
    grid.left as u128 + span(grid.step, i)
}

fn inputs_top(trace: &Trace) -> u128
    ensures place { result ≡ svg.inputs_top trace.now }
    ensures small { result < 2 ^ 70 }
{
    24 + 24 * head_row(trace.states.as_slice()).len() as u128
}

fn bottom(trace: &Trace) -> u128
    ensures place { result ≡ svg.bottom trace.now }
    ensures small { result < 2 ^ 71 }
{
    inputs_top(trace) + 24 * head_row(trace.inputs.as_slice()).len() as u128
}

fn write_start(out: &mut String, grid: Grid, y: u128) -> Result<(), AllocError>
    ensures { OnOk result (string_bytes out.new ≡ string_bytes out.old ++ svg.start_text grid y) }
{
    let left = grid.left;
    write!(out, "M{left} {y}")
}

fn level(value: Option<&Text>) -> u128
    ensures height { result ≡ svg.level (option_copied value.entry) }
    ensures small { result ≤ 20 }
{
    match value {
        None => 12,
        Some(text) => { if text.as_str() == "TRUE" { 4 } else { 20 } }
    }
}

fn write_level(
    out: &mut String,
    rows: &[Items<Binding>],
    grid: Grid,
    y: u128,
    j: usize,
    i: usize,
) -> Result<(), AllocError>
    requires { y < 2 ^ 80 }
    ensures { OnOk result (string_bytes out.new ≡ string_bytes out.old ++ svg.level_text rows.now grid y j i) }
{
    let height = y + level(value_at(rows, i, j));
    let x = x_of(grid, i) + grid.step as u128;
    write!(out, "V{height}H{x}")
}

fn write_levels(
    out: &mut String,
    states: &[Items<Binding>],
    rows: &[Items<Binding>],
    grid: Grid,
    y: u128,
    j: usize,
) -> Result<(), AllocError>
    requires { y < 2 ^ 80 }
    ensures { OnOk result (string_bytes out.new ≡ string_bytes out.old ++ svg.levels_text rows.now grid y j 0 states.now) }
{
    for (i, _) in states.iter().enumerate() {
        write_level(out, rows, grid, y, j, i)?;
    }
    Ok(())
}

// The line of a column of TRUE and FALSE.
fn write_line(
    out: &mut String,
    trace: &Trace,
    rows: &[Items<Binding>],
    grid: Grid,
    y: u128,
    j: usize,
) -> Result<(), AllocError>
    requires { y < 2 ^ 80 }
    ensures { OnOk result (string_bytes out.new ≡ string_bytes out.old ++ svg.line_wave trace.now rows.now grid y j) }
{
    out.push_str("<path d='")?;
    write_start(out, grid, y + level(value_at(rows, 0, j)))?;
    write_levels(out, trace.states.as_slice(), rows, grid, y, j)?;
    out.push_str("'/>\n")
}

fn is_old(rows: &[Items<Binding>], i: usize, j: usize) -> bool
    ensures { result ≡ svg.is_old rows.now i j }
{
    shown(value_before(rows, i, j)) == shown(value_at(rows, i, j))
}

fn write_edge(
    out: &mut String,
    rows: &[Items<Binding>],
    grid: Grid,
    y: u128,
    j: usize,
    i: usize,
) -> Result<(), AllocError>
    requires { y < 2 ^ 80 }
    ensures { OnOk result (string_bytes out.new ≡ string_bytes out.old ++ svg.edge_text rows.now grid y j i) }
{
    if is_old(rows, i, j) {
        return Ok(());
    }
    let (x, top) = (x_of(grid, i), y + 4);
    write!(out, "M{x} {top}v16")
}

fn write_edges(
    out: &mut String,
    states: &[Items<Binding>],
    rows: &[Items<Binding>],
    grid: Grid,
    y: u128,
    j: usize,
) -> Result<(), AllocError>
    requires { y < 2 ^ 80 }
    ensures { OnOk result (string_bytes out.new ≡ string_bytes out.old ++ svg.edges_text rows.now grid y j 0 states.now) }
{
    for (i, _) in states.iter().enumerate() {
        write_edge(out, rows, grid, y, j, i)?;
    }
    Ok(())
}

fn write_label(
    alloc: Global,
    out: &mut String,
    rows: &[Items<Binding>],
    grid: Grid,
    y: u128,
    j: usize,
    i: usize,
) -> Result<(), AllocError>
    requires { y < 2 ^ 80 }
    ensures { OnOk result (string_bytes out.new ≡ string_bytes out.old ++ svg.label_text rows.now grid y j i) }
{
    if is_old(rows, i, j) {
        return Ok(());
    }
    let text = shown(value_at(rows, i, j));
    write_text(alloc, out, x_of(grid, i) + 6, y + 17, text)
}

fn write_labels(
    alloc: Global,
    out: &mut String,
    states: &[Items<Binding>],
    rows: &[Items<Binding>],
    grid: Grid,
    y: u128,
    j: usize,
) -> Result<(), AllocError>
    requires { y < 2 ^ 80 }
    ensures { OnOk result (string_bytes out.new ≡ string_bytes out.old ++ svg.labels_text rows.now grid y j 0 states.now) }
{
    for (i, _) in states.iter().enumerate() {
        write_label(alloc, out, rows, grid, y, j, i)?;
    }
    Ok(())
}

fn write_rail(out: &mut String, trace: &Trace, grid: Grid, y: u128) -> Result<(), AllocError>
    ensures { OnOk result (string_bytes out.new ≡ string_bytes out.old ++ svg.rail_text trace.now grid y) }
{
    let end = x_of(grid, trace.states.len());
    write_start(out, grid, y)?;
    write!(out, "H{end}")
}

fn write_rails(out: &mut String, trace: &Trace, grid: Grid, y: u128) -> Result<(), AllocError>
    requires { y < 2 ^ 80 }
    ensures { OnOk result (string_bytes out.new ≡ string_bytes out.old ++ svg.rails_text trace.now grid y) }
{
    write_rail(out, trace, grid, y + 4)?;
    write_rail(out, trace, grid, y + 20)
}

fn write_path(
    out: &mut String,
    trace: &Trace,
    rows: &[Items<Binding>],
    grid: Grid,
    y: u128,
    j: usize,
) -> Result<(), AllocError>
    requires { y < 2 ^ 80 }
    ensures { OnOk result (string_bytes out.new ≡ string_bytes out.old ++ svg.bus_path trace.now rows.now grid y j) }
{
    out.push_str("<path d='")?;
    write_rails(out, trace, grid, y)?;
    write_edges(out, trace.states.as_slice(), rows, grid, y, j)?;
    out.push_str("'/>\n")
}

// The bus of a column.
fn write_bus(
    alloc: Global,
    out: &mut String,
    trace: &Trace,
    rows: &[Items<Binding>],
    grid: Grid,
    y: u128,
    j: usize,
) -> Result<(), AllocError>
    requires { y < 2 ^ 80 }
    ensures { OnOk result (string_bytes out.new ≡ string_bytes out.old ++ svg.bus_wave trace.now rows.now grid y j) }
{
    write_path(out, trace, rows, grid, y, j)?;
    write_labels(alloc, out, trace.states.as_slice(), rows, grid, y, j)
}

#[tactic(auto, unfolding(crate::specs::Svg::wave))]
fn write_wave(
    alloc: Global,
    out: &mut String,
    trace: &Trace,
    rows: &[Items<Binding>],
    grid: Grid,
    kind: Kind,
    y: u128,
    j: usize,
) -> Result<(), AllocError>
    requires { y < 2 ^ 80 }
    ensures { OnOk result (string_bytes out.new ≡ string_bytes out.old ++ svg.wave trace.now rows.now grid kind y j) }
{
    match kind {
        Kind::Bit => write_line(out, trace, rows, grid, y, j),
        Kind::Bits(_) | Kind::Number | Kind::Symbol => {
            write_bus(alloc, out, trace, rows, grid, y, j)
        }
    }
}

fn write_row(
    alloc: Global,
    out: &mut String,
    trace: &Trace,
    rows: &[Items<Binding>],
    grid: Grid,
    y: u128,
    j: usize,
    name: &Text,
) -> Result<(), AllocError>
    requires { y < 2 ^ 80 }
    ensures { OnOk result (string_bytes out.new ≡ string_bytes out.old ++ svg.row_text trace.now rows.now grid y j name.now) }
{
    let kind = column_kind(alloc, rows, j)?;
    write_text(alloc, out, 8, y + 17, name.as_str())?;
    write_wave(alloc, out, trace, rows, grid, kind, y, j)
}

// The rows of a block of columns, of which the first begins at this height.
fn write_rows(
    alloc: Global,
    out: &mut String,
    trace: &Trace,
    rows: &[Items<Binding>],
    grid: Grid,
    top: u128,
) -> Result<(), AllocError>
    requires { top < 2 ^ 70 }
    ensures { OnOk result (string_bytes out.new ≡ string_bytes out.old ++ svg.rows_text trace.now rows.now grid top 0 (head_row rows.now)) }
{
    for (j, b) in head_row(rows).iter().enumerate() {
        let y = top + 24 * j as u128;
        write_row(alloc, out, trace, rows, grid, y, j, &b.name)?;
    }
    Ok(())
}

fn write_time(
    alloc: Global,
    out: &mut String,
    trace: &Trace,
    grid: Grid,
    i: usize,
) -> Result<(), AllocError>
    ensures { OnOk result (string_bytes out.new ≡ string_bytes out.old ++ svg.text_at (svg.x_of grid i + 6) 17 (time trace.now i)) }
{
    let text = time(alloc, trace, i)?;
    write_text(alloc, out, x_of(grid, i) + 6, 17, text.as_str())
}

fn write_times(alloc: Global, out: &mut String, trace: &Trace, grid: Grid) -> Result<(), AllocError>
    ensures { OnOk result (string_bytes out.new ≡ string_bytes out.old ++ svg.times_text trace.now grid 0 trace.now.states) }
{
    for (i, _) in trace.states.as_slice().iter().enumerate() {
        write_time(alloc, out, trace, grid, i)?;
    }
    Ok(())
}

fn write_loop(out: &mut String, trace: &Trace, grid: Grid) -> Result<(), AllocError>
    ensures { OnOk result (string_bytes out.new ≡ string_bytes out.old ++ svg.loop_shade trace.now grid trace.now.start) }
{
    match trace.start {
        None => Ok(()),
        Some(start) => {
            let width = span(grid.step, trace.states.len().saturating_sub(start));
            write_shade(out, x_of(grid, start), width, bottom(trace))
        }
    }
}

#[tactic(auto, unfolding(crate::specs::Svg::root_text))]
fn write_root(out: &mut String) -> Result<(), AllocError>
    ensures { OnOk result (string_bytes out.new ≡ string_bytes out.old ++ svg.root_text) }
{
    out.push_str("<svg xmlns='http://www.w3.org/2000/svg' ")
}

#[tactic(auto, unfolding(crate::specs::Svg::style_text))]
fn write_style(out: &mut String) -> Result<(), AllocError>
    ensures { OnOk result (string_bytes out.new ≡ string_bytes out.old ++ svg.style_text) }
{
    out.push_str("<style>text{font:13px monospace}path{fill:none;stroke:#036}</style>\n")
}

fn write_size(out: &mut String, width: u128, height: u128) -> Result<(), AllocError>
    ensures { OnOk result (string_bytes out.new ≡ string_bytes out.old ++ svg.size_text width height) }
{
    write!(out, "width='{width}' height='{height}'>\n")
}

#[tactic(auto, unfolding(crate::specs::Svg::head_text))]
fn write_head(alloc: Global, out: &mut String, trace: &Trace, grid: Grid) -> Result<(), AllocError>
    ensures { OnOk result (string_bytes out.new ≡ string_bytes out.old ++ svg.head_text trace.now grid) }
{
    let (width, height) = (x_of(grid, trace.states.len()) + 8, bottom(trace) + 8);
    let title = title(alloc, trace)?;
    write_root(out)?;
    write_size(out, width, height)?;
    write_style(out)?;
    write_loop(out, trace, grid)?;
    write_text(alloc, out, 8, 17, title.as_str())?;
    write_times(alloc, out, trace, grid)
}

fn write_states(
    alloc: Global,
    out: &mut String,
    trace: &Trace,
    grid: Grid,
) -> Result<(), AllocError>
    ensures { OnOk result (string_bytes out.new ≡ string_bytes out.old ++ svg.states_text trace.now grid) }
{
    write_rows(alloc, out, trace, trace.states.as_slice(), grid, 24)
}

fn write_inputs(
    alloc: Global,
    out: &mut String,
    trace: &Trace,
    grid: Grid,
) -> Result<(), AllocError>
    ensures { OnOk result (string_bytes out.new ≡ string_bytes out.old ++ svg.inputs_text trace.now grid) }
{
    let top = inputs_top(trace);
    write_rows(alloc, out, trace, trace.inputs.as_slice(), grid, top)
}

fn write_with(alloc: Global, out: &mut String, trace: &Trace, grid: Grid) -> Result<(), AllocError>
    ensures { OnOk result (string_bytes out.new ≡ string_bytes out.old ++ svg.picture_with trace.now grid) }
{
    write_head(alloc, out, trace, grid)?;
    write_states(alloc, out, trace, grid)?;
    write_inputs(alloc, out, trace, grid)?;
    out.push_str("</svg>\n")
}

/// Writes the picture of a trace: a row for each name, with a line for TRUE and FALSE and a bus with its values for all
/// others. The times of the loop are shaded. Memory may be refused. The time is linear in the values and the text.
#[tactic(auto, unfolding(crate::specs::Svg::svg_text))]
pub fn write_svg(alloc: Global, out: &mut String, trace: &Trace) -> Result<(), AllocError>
    ensures { OnOk result (string_bytes out.new ≡ string_bytes out.old ++ svg.svg_text trace.now) }
{
    let grid = grid_of(alloc, trace)?;
    write_with(alloc, out, trace, grid)
}
