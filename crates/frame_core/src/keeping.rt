//! The frames of IC3 (Bradley 2011): lemmas with levels, a top for each system, and proof
//! obligations. Each call keeps the law of the frames.

ghost use Rattle.std.specs.Prelude.{◌≡◌, ◌<◌, ◌↔◌, ◌++◌, ◌∷◌, [], true, length, IsTrue, OnOk, OnErr};
ghost use Rattle.frame_core.specs.FrameLaw.{IsAsHigh};
ghost use Rattle.frame_core.specs.Counting.{AreCounts, more_at};

use crate::comparing::difference;
use crate::counting::{
    count_below, count_less, count_more, empty_level, lower, mark, set_top, unmark,
};
use crate::facts::{Clear, Proved, StateWitness};
use crate::lemma_list::Lemmas;
use crate::looking::{holder, some_behind};
use crate::outcomes::{FramesVerdict, Insertion, Noting, Opening, Raising};
use crate::parts::{Lemma, Obligation};
use crate::runs::BitRun;
use clause_core::{Bits, Clause, System};
use std::alloc::{AllocError, Global};
use std::marker::Model;
use std::slice::from_ref;

/// The frames of some systems that differ in their bad states alone: lemmas with levels, a top for each
/// system, and obligations. Its type keeps the law of the frames, and contracts see it as that data.
#[derive(Drop)]
pub struct Frames<'a> {
    systems: &'a [System],
    lemmas: Lemmas,
    tops: Vec<u32>,
    obligations: Vec<Obligation>,
    // how many live lemmas each level has; there is a count for each level below a top
    counts: Vec<usize>,
    // for each system its first obligation that is an initial state
    marks: Vec<Option<usize>>,
}

impl<'a> Model for Frames<'a> {
    ghost use Rattle.frame_core.specs.FrameLaw.{FrameState};
    ghost use Rattle.frame_core.specs.Counting.{IsKept};

    ghost Value = { FrameState };

    ghost view = { λ f. record { systems = f.systems.now; lemmas = f.lemmas; tops = f.tops.items; obligations = f.obligations.items } };

    ghost invariant = { λ f. IsKept record { systems = f.systems.now; lemmas = f.lemmas; tops = f.tops.items; obligations = f.obligations.items } f.counts.items f.marks.items };
}

impl<'a> Frames<'a> {
    ghost use Rattle.std.specs.Prelude.{◌≡◌, ◌<◌, ◌+◌, ◌-◌, ◌^◌, [], ◌∷◌, false, true, length, is_none, IfOk, OnErr, MatchOption};
    ghost use Rattle.frame_core.specs.FrameLaw.{FrameState, FramesHold, AreAlike, AllStand, system_at, top_at, lemma_at, obligation_at};
    ghost use Rattle.frame_core.specs.Facts.{IsProved, IsClear};
    ghost use Rattle.frame_core.specs.Looking.{IsHeldByNone};
    ghost use Rattle.frame_core.specs.Changes.{IsOfSystem, Inserts, InsertsSame, Raises, RaisesSame, IsCovered, with_retired, Opens, OpensSame, MayHaveParent, Notes, NotesSame, VerdictSays, IsFirstObligation, IsCut, fresh};
    ghost use Rattle.frame_core.specs.Runs.{IsBadRun};

    /// The frames of these systems with no lemma, no obligation and tops 0.
    pub fn new(alloc: Global, systems: &'a [System]) -> Result<Frames<'a>, AllocError>
        requires some { 0 < length systems.now }
        requires alike { AreAlike systems.now }
        ensures { IfOk result (λ f. f ≡ fresh systems.now []) }
    {
        let tops = vec![in alloc; 0u32; systems.len()]?;
        let marks: Vec<Option<usize>> = vec![in alloc; None; systems.len()]?;
        Ok(Frames {
            systems,
            lemmas: Lemmas::new(alloc),
            tops,
            obligations: Vec::new(alloc),
            counts: Vec::new(alloc),
            marks,
        })
    }

    /// The frames of one system.
    pub fn of_one(alloc: Global, system: &'a System) -> Result<Frames<'a>, AllocError>
        ensures { IfOk result (λ f. f ≡ fresh (system.now ∷ []) []) }
    {
        Frames::new(alloc, from_ref(system))
    }

    /// The same lemmas for other systems, as many: they keep their levels, which may be above the tops;
    /// the tops are 0, and there is no obligation. Takes no memory.
    pub fn carry<'b>(self, systems: &'b [System]) -> Frames<'b>
        requires number { length systems.now ≡ length self.systems }
        requires alike { AreAlike systems.now }
        requires cut { IsCut (system_at self.systems 0) (system_at systems.now 0) }
        ensures { result ≡ fresh systems.now self.entry.lemmas }
    {
        let Frames {
            systems: _,
            lemmas,
            mut tops,
            mut obligations,
            counts,
            mut marks,
        } = self;
        lower(&mut tops);
        unmark(&mut marks);
        obligations.clear();
        Frames {
            systems,
            lemmas,
            tops,
            obligations,
            counts,
            marks,
        }
    }

    /// The systems that they speak of.
    pub fn systems(&self) -> &'a [System]
        ensures value { result.now ≡ self.now.systems }
        ensures law { FramesHold self.now }
    {
        self.systems
    }

    /// The top of system `j`: no frame below it has a state that is bad for `j`.
    pub fn top(&self, j: usize) -> u32
        requires { j < length self.now.systems }
        ensures value { result ≡ top_at self.now.tops j }
        ensures law { FramesHold self.now }
    {
        self.tops[j]
    }

    /// How many lemmas there are, retired ones too.
    pub fn lemmas(&self) -> usize
        ensures { result ≡ length self.now.lemmas }
    {
        self.lemmas.len()
    }

    /// Lemma number `n`.
    pub fn lemma(&self, n: usize) -> &Lemma
        requires { n < length self.now.lemmas }
        ensures { result.now ≡ lemma_at self.now.lemmas n }
    {
        self.lemmas.lemma(n)
    }

    /// All lemmas.
    pub fn all_lemmas(&self) -> &Lemmas
        ensures value { result.now ≡ self.now.lemmas }
        ensures law { FramesHold self.now }
    {
        &self.lemmas
    }

    /// How many obligations there are.
    pub fn obligations(&self) -> usize
        ensures { result ≡ length self.now.obligations }
    {
        self.obligations.len()
    }

    /// Obligation number `n`.
    pub fn obligation(&self, n: usize) -> &Obligation
        requires { n < length self.now.obligations }
        ensures { result.now ≡ obligation_at self.now.obligations n }
    {
        &self.obligations[n]
    }

    /// Adds the clause as a lemma, unless it is of another system, a lemma holds it already, or a parent's
    /// level, looked up now, is too low. If memory runs out, the frames are as before.
    ///
    /// It compares the systems clause by clause, and then does as `insert_same`.
    pub fn insert(&mut self, proved: Proved) -> Result<Insertion, AllocError>
        ensures done { IfOk result (λ r. Inserts self.old proved.entry r self.new) }
        ensures err { OnErr result (self.new ≡ self.old) }
    {
        self.insert_lent(&proved)
    }

    // The same where the proof is lent.
    fn insert_lent(&mut self, proved: &Proved) -> Result<Insertion, AllocError>
        ensures done { IfOk result (λ r. Inserts self.old proved.now r self.new) }
        ensures err { OnErr result (self.new ≡ self.old) }
    {
        let systems = self.systems();
        if let Some(place) = difference(&systems[0], proved.system(), false) {
            return Ok(Insertion::OtherSystem { place });
        }
        let clause = Clause::from_slice(self.lemmas.alloc(), proved.clause())?;
        let insertion = self.insert_same(proved, clause)?;
        Ok(insertion)
    }

    /// The same where the clause is known to be of the frames' systems; compares no systems. The proof is
    /// lent, and `clause` is a copy of its clause, which becomes the lemma's. If memory runs out, the frames
    /// are as before.
    ///
    /// It takes a table of two entries for each state bit, and looks at one word of each lemma. Where that
    /// does not rule the lemma out and its level is high enough, it looks at its literals up to the first
    /// that the clause lacks, each by one look into the table.
    pub fn insert_same(&mut self, proved: &Proved, clause: Clause) -> Result<Insertion, AllocError>
        requires same { IsOfSystem self.old 0 false proved.now.system }
        requires copy { clause ≡ proved.now.clause }
        ensures done { IfOk result (λ r. InsertsSame self.old proved.now r self.new) }
        ensures err { OnErr result (self.new ≡ self.old) }
    {
        if let Some(insertion) = self.insertion_refused(proved)? {
            return Ok(insertion);
        }
        let number = self.lemmas.len();
        push_counted(&mut self.lemmas, &mut self.counts, clause, proved.level())?;
        Ok(Insertion::Added(number))
    }

    // Why the clause of the proof is not to be added: a lemma holds it, or a parent's level is too low.
    fn insertion_refused(&self, proved: &Proved) -> Result<Option<Insertion>, AllocError>
        ensures answer { IfOk result (λ r. MatchOption r (IsHeldByNone self.now.lemmas proved.now.clause proved.now.level × AllStand self.now.lemmas (proved.now.level - 1) proved.now.parents) (λ i. InsertsSame self.now proved.now i self.now)) }
        ensures shown { IsProved proved.now }
    {
        let alloc = self.lemmas.alloc();
        let vars = proved.system().state_bits();
        if let Some(n) = holder(alloc, vars, &self.lemmas, proved.clause(), proved.level())? {
            return Ok(Some(Insertion::Held(n)));
        }
        if let Some((parent, level)) = some_behind(
            self.lemmas.as_slice(),
            proved.level() - 1,
            proved.parents(),
        ) {
            return Ok(Some(Insertion::Behind { parent, level }));
        }
        Ok(None)
    }

    /// Raises lemma `n` to the proof's level, unless the proof is of another system, the lemma is retired
    /// or as high already, or a parent's level, looked up now, is too low. Takes no memory.
    pub fn raise(&mut self, n: usize, proved: Proved) -> Raising
        requires in_range { n < length self.old.lemmas }
        requires clause { proved.clause ≡ (lemma_at self.old.lemmas n).clause }
        ensures { Raises self.old n proved.entry result self.new }
    {
        self.raise_lent(n, &proved)
    }

    // The same where the proof is lent.
    fn raise_lent(&mut self, n: usize, proved: &Proved) -> Raising
        requires in_range { n < length self.old.lemmas }
        requires clause { proved.now.clause ≡ (lemma_at self.old.lemmas n).clause }
        ensures { Raises self.old n proved.now result self.new }
    {
        let systems = self.systems();
        if let Some(place) = difference(&systems[0], proved.system(), false) {
            return Raising::OtherSystem { place };
        }
        self.raise_same(n, proved)
    }

    /// The same where the proof, which is lent, is known to be of the frames' systems; compares no systems.
    pub fn raise_same(&mut self, n: usize, proved: &Proved) -> Raising
        requires in_range { n < length self.old.lemmas }
        requires clause { proved.now.clause ≡ (lemma_at self.old.lemmas n).clause }
        requires same { IsOfSystem self.old 0 false proved.now.system }
        ensures { RaisesSame self.old n proved.now result self.new }
    {
        let _system = proved.system();
        let level = proved.level();
        if needs_no_raise(self.lemmas.as_slice(), n, level) {
            return Raising::Dropped;
        }
        if let Some((parent, level)) = some_behind(
            self.lemmas.as_slice(),
            level - 1,
            proved.parents(),
        ) {
            return Raising::Behind { parent, level };
        }
        let before = self.lemmas.lemma(n).level;
        self.lemmas.raise(n, level);
        let _number = self.lemmas.len();
        count_less(&mut self.counts, true, before);
        count_more(&mut self.counts, level);
        Raising::Raised
    }

    /// Retires lemma `n`, which another live lemma covers. Takes no memory.
    pub fn retire(&mut self, n: usize)
        requires in_range { n < length self.old.lemmas }
        requires covered { IsCovered self.old n }
        ensures { self.new ≡ with_retired self.old n }
    {
        let level = self.lemmas.lemma(n).level;
        let live = self.lemmas.lemma(n).live;
        self.lemmas.retire(n);
        count_less(&mut self.counts, live, level);
    }

    /// Opens the top of system `j`: it is one more where its frame has no state that is bad for `j`. If
    /// memory runs out, the frames are as before.
    pub fn open(&mut self, j: usize, clear: Clear) -> Result<Opening, AllocError>
        requires in_range { j < length self.old.systems }
        requires room { top_at self.old.tops j + 1 < 2 ^ 32 }
        ensures done { IfOk result (λ r. Opens self.old j clear.entry r self.new) }
        ensures err { OnErr result (self.new ≡ self.old) }
    {
        self.open_lent(j, &clear)
    }

    // The same where the proof is lent.
    fn open_lent(&mut self, j: usize, clear: &Clear) -> Result<Opening, AllocError>
        requires in_range { j < length self.old.systems }
        requires room { top_at self.old.tops j + 1 < 2 ^ 32 }
        ensures done { IfOk result (λ r. Opens self.old j clear.now r self.new) }
        ensures err { OnErr result (self.new ≡ self.old) }
    {
        let systems = self.systems();
        if let Some(place) = difference(&systems[j], clear.system(), true) {
            return Ok(Opening::OtherSystem { place });
        }
        let opening = self.open_same(j, clear)?;
        Ok(opening)
    }

    /// The same where the proof, which is lent, is known to be of system `j`; compares no systems.
    pub fn open_same(&mut self, j: usize, clear: &Clear) -> Result<Opening, AllocError>
        requires in_range { j < length self.old.systems }
        requires room { top_at self.old.tops j + 1 < 2 ^ 32 }
        requires same { IsOfSystem self.old j true clear.now.system }
        ensures done { IfOk result (λ r. OpensSame self.old j clear.now r self.new) }
        ensures err { OnErr result (self.new ≡ self.old) }
    {
        if let Some(opening) = self.opening_refused(j, clear) {
            return Ok(opening);
        }
        let top = self.tops[j];
        count_below(&mut self.counts, self.lemmas.as_slice(), top + 1)?;
        set_top(&mut self.tops, j, top + 1);
        Ok(Opening::Opened)
    }

    // Why the top of system `j` is not to be opened: it is another than the proof's level, or a parent's level
    // is below it.
    fn opening_refused(&self, j: usize, clear: &Clear) -> Option<Opening>
        requires { j < length self.now.systems }
        ensures answer { MatchOption result ((clear.now.level ≡ top_at self.now.tops j) × AllStand self.now.lemmas (top_at self.now.tops j) clear.now.parents) (λ o. OpensSame self.now j clear.now o self.now) }
        ensures shown { IsClear clear.now }
    {
        let _system = clear.system();
        let top = self.top(j);
        if clear.level() != top {
            return Some(Opening::Dropped);
        }
        let lemmas = self.all_lemmas();
        if let Some((parent, level)) = some_behind(lemmas.as_slice(), top, clear.parents()) {
            return Some(Opening::Behind { parent, level });
        }
        None
    }

    /// Notes a state that leads to one that is bad for system `j`: a bad state has no parent, and a step
    /// ends in the state of the parent, which is of `j`. If memory runs out, the frames are as before.
    pub fn add_obligation(
        &mut self,
        j: usize,
        found: StateWitness,
        parent: Option<usize>,
    ) -> Result<Noting, AllocError>
        requires in_range { j < length self.old.systems }
        requires parent { MayHaveParent self.old j found parent }
        ensures done { IfOk result (λ r. Notes self.old j found.entry parent r self.new) }
        ensures err { OnErr result (self.new ≡ self.old) }
    {
        let systems = self.systems();
        if let Some(place) = difference(&systems[j], found.system(), parent.is_none()) {
            return Ok(Noting::OtherSystem { place });
        }
        let noting = self.add_obligation_same(j, found, parent)?;
        Ok(noting)
    }

    /// The same where the state is known to be of system `j`; compares no systems.
    pub fn add_obligation_same(
        &mut self,
        j: usize,
        found: StateWitness,
        parent: Option<usize>,
    ) -> Result<Noting, AllocError>
        requires in_range { j < length self.old.systems }
        requires parent { MayHaveParent self.old j found parent }
        requires same { IsOfSystem self.old j (is_none parent) found.system }
        ensures done { IfOk result (λ r. NotesSame self.old j found.entry parent r self.new) }
        ensures err { OnErr result (self.new ≡ self.old) }
    {
        let _system = found.system();
        let number = self.obligations.len();
        self.obligations.reserve(1)?;
        let first = found.is_first();
        let values = found.into_values();
        self.obligations.push_reserved(Obligation {
            system: j,
            values,
            parent,
            first,
        });
        mark(&mut self.marks, j, first, number);
        Ok(Noting::Noted(number))
    }

    /// What the frames say of system `j`: an obligation of `j` that is an initial state, else a level from 1
    /// below the top of `j` that no live lemma has. Takes no memory, and looks at a count for each level
    /// below the top, at no lemma and at no obligation.
    pub fn verdict(&self, j: usize) -> Option<FramesVerdict>
        requires { j < length self.now.systems }
        ensures { VerdictSays self.now j result }
    {
        if let Some(n) = self.marks[j] {
            return Some(FramesVerdict::Reached(n));
        }
        match empty_level(&self.counts, self.tops[j]) {
            Some(level) => Some(FramesVerdict::Invariant(level)),
            None => None,
        }
    }

    /// The run from obligation `n`, which is an initial state, to a state that is bad for its system.
    pub fn run_of(&self, alloc: Global, n: usize) -> Result<BitRun, AllocError>
        requires in_range { n < length self.now.obligations }
        requires first { IsFirstObligation self.now n }
        ensures { IfOk result (IsBadRun (system_at self.now.systems (obligation_at self.now.obligations n).system)) }
    {
        let mut rows = Vec::new(alloc);
        let mut at = n;
        'rows: loop {
            let obligation = &self.obligations[at];
            let values = Bits::from_slice(alloc, obligation.values.as_slice())?;
            rows.push(values)?;
            match obligation.parent {
                None => return Ok(BitRun::from_vec(rows)),
                Some(parent) => at = parent,
            }
        }
    }
}

// Adds a live lemma of this level, and counts it.
fn push_counted(
    lemmas: &mut Lemmas,
    counts: &mut Vec<usize>,
    clause: Clause,
    level: u32,
) -> Result<(), AllocError>
    requires { AreCounts lemmas.old counts.old.items }
    ensures lemmas { OnOk result (lemmas.new ≡ lemmas.old ++ record { clause = clause; level = level; live = true } ∷ []) }
    ensures counts { OnOk result (counts.new.items ≡ more_at counts.old.items level) }
    ensures err { OnErr result ((lemmas.new ≡ lemmas.old) × (counts.new.items ≡ counts.old.items)) }
{
    lemmas.push(clause, level)?;
    let _after = lemmas.len();
    count_more(counts, level);
    Ok(())
}

// Whether the lemma is retired, or has at least this level.
fn needs_no_raise(lemmas: &[Lemma], n: usize, level: u32) -> bool
    requires { n < length lemmas.now }
    ensures { IsTrue result ↔ IsAsHigh lemmas.now n level }
{
    !lemmas[n].live || lemmas[n].level >= level
}
