//! Models that are made: a ring of cells that hand a token on.
#![tactic(auto)]

ghost use Rattle.std.specs.Prelude.{◌≡◌, ◌≤◌, ◌%◌, IfOk, Some, string_bytes};
ghost use Rattle.std.specs.List.{flat_map, range_with_len};
ghost use Rattle.std.specs.Fmt.{WritesOnOk};
ghost use Rattle.model_gen.specs.Ring.{before, cell_line, cell_text, claims_text, ring_text};

use std::alloc::{AllocError, Global};
use std::fmt;

/// The source of a ring of `cells` cells, each of which takes the token from the one before it; cell `seed % cells`
/// begins with it. It claims that the first two cells never have it together, and that the first has it again and
/// again. The only error is that memory is refused.
pub fn ring(alloc: Global, cells: usize, seed: u64) -> Result<String, AllocError>
    requires { 2 ≤ cells }
    ensures { IfOk result (λ text. string_bytes text ≡ ring_text cells (seed % cells)) }
{
    let start = seed % cells as u64;
    let ring = TokenRing {
        cells,
        start: start as usize,
    };
    ring.to_string(alloc)
}

// So many cells, of which this one begins with the token.
#[derive(Clone, Copy, Debug)]
struct TokenRing {
    cells: usize,
    start: usize,
}

impl fmt::Display for TokenRing {
    ghost output = { λ r. Some (ring_text r.cells r.start) };

    fn fmt<W: fmt::Write>(&self, f: &mut fmt::Formatter<W>) -> fmt::Result {
        write_module(f)?;
        write_cells(f, *self)?;
        write_claims(f)
    }
}

// What a cell is.
fn write_module<W: fmt::Write>(f: &mut fmt::Formatter<W>) -> fmt::Result
    ensures { WritesOnOk W.Write.write_str_gives f.old result cell_text f.new }
{
    writeln!(f, "MODULE cell(prev, start)")?;
    writeln!(f, "VAR t : boolean;")?;
    writeln!(f, "ASSIGN init(t) := start; next(t) := prev.t;")?;
    writeln!(f, "MODULE main")
}

// What is claimed of the ring.
fn write_claims<W: fmt::Write>(f: &mut fmt::Formatter<W>) -> fmt::Result
    ensures { WritesOnOk W.Write.write_str_gives f.old result claims_text f.new }
{
    writeln!(f, "INVARSPEC !(c0.t & c1.t)")?;
    writeln!(f, "LTLSPEC G F c0.t")
}

// The declarations of all cells.
fn write_cells<W: fmt::Write>(f: &mut fmt::Formatter<W>, ring: TokenRing) -> fmt::Result
    ensures { WritesOnOk W.Write.write_str_gives f.old result (flat_map (cell_line ring.cells ring.start) (range_with_len 0 ring.cells)) f.new }
{
    for i in 0..ring.cells {
        write_cell(f, ring, i)?;
    }
    Ok(())
}

fn write_cell<W: fmt::Write>(f: &mut fmt::Formatter<W>, ring: TokenRing, i: usize) -> fmt::Result
    ensures { WritesOnOk W.Write.write_str_gives f.old result (cell_line ring.cells ring.start i) f.new }
{
    let before = before(ring.cells, i);
    if i == ring.start {
        writeln!(f, "VAR c{i} : cell(c{before}, TRUE);")
    } else {
        writeln!(f, "VAR c{i} : cell(c{before}, FALSE);")
    }
}

// The cell before this one; before the first comes the last.
fn before(cells: usize, i: usize) -> usize
    ensures { result ≡ before cells i }
{
    if i == 0 {
        cells.saturating_sub(1)
    } else {
        i - 1
    }
}
