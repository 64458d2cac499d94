//! What a command line asks for.

ghost use Rattle.std.specs.Prelude.{◌≡◌};
ghost use Rattle.command_words.specs.Grammar.{default_effort};

/// What a command line asks for.
#[derive(Clone, Copy, Debug, Drop, PartialEq, Eq)]
pub enum Command {
    /// A model is read, and each of its specifications is decided with this effort.
    Check(Effort),
    /// A model is read with the lines of a report, and each of its specifications is judged by its trace or its
    /// certificate; with `upgrade` the certificates are made anew in the form that is judged by hints.
    Recheck { upgrade: bool },
    /// A model is read, and its slots and items are listed.
    Flat,
    /// The model of this ring is made. Each of its specifications is decided with the effort of a `check` without
    /// options, by the ring's workers.
    Ring(Ring),
}

/// A ring of cells that hand a token on.
#[derive(Clone, Copy, Debug, Drop, PartialEq, Eq)]
pub struct Ring {
    /// How many cells it has.
    pub cells: usize,
    /// What picks the cell that begins with the token: the rest of a division by the number of cells.
    pub seed: u64,
    /// How many workers explore frames together, from 1 on.
    pub workers: u32,
}

/// How much effort a specification may cost.
#[derive(Clone, Copy, Debug, Drop, PartialEq, Eq)]
pub struct Effort {
    /// How many workers explore frames together, from 1 on.
    pub workers: u32,
    /// How many tickets: one for each query to the solver, and one for each clause that it learns.
    pub conflicts: u64,
    /// How many states the lassos have at most that are looked for.
    pub bound: usize,
    /// The greatest level of the frames at which states that break an invariant are looked for.
    pub frames: u32,
    /// The greatest number of signals that a counter admits with which a formula is proved.
    pub counter: usize,
    /// Whether all invariants are decided over one pool of lemmas, at the cost of one specification.
    pub together: bool,
    /// Whether the certificate of what is true is printed.
    pub cert: bool,
}

/// The effort of a `check` without options.
pub fn default_effort() -> Effort
    ensures { result ≡ default_effort }
{
    Effort {
        workers: 1,
        conflicts: 1_000_000,
        bound: 30,
        frames: 1000,
        counter: 16,
        together: false,
        cert: false,
    }
}
