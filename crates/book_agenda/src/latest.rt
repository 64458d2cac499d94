//! The number of the last claim of each subject.

ghost use Rattle.std.specs.Prelude.{◌≡◌, ◌<◌, ℕ, length, slice_index_or, slice_set, None, Some, OnOk};
ghost use Rattle.frame_history.specs.declared.entries.Subject.{Subject as ASubject};
ghost use Rattle.book_agenda.specs.Register.{latest_at, IsCoveredIn};

use frame_history::Subject;
use std::alloc::{AllocError, Global};

#[derive(Drop)]
pub(crate) struct Latest {
    pub(crate) bads: Vec<Option<usize>>,
    pub(crate) blocks: Vec<Option<usize>>,
    pub(crate) pushes: Vec<Option<usize>>,
}

impl Latest {
    pub(crate) fn new(alloc: Global) -> Latest
        ensures { (u : ASubject) → latest_at result.bads.items result.blocks.items result.pushes.items u ≡ None }
    {
        Latest {
            bads: Vec::new(alloc),
            blocks: Vec::new(alloc),
            pushes: Vec::new(alloc),
        }
    }

    pub(crate) fn get(&self, subject: Subject) -> Option<usize>
        ensures { result ≡ latest_at self.now.bads.items self.now.blocks.items self.now.pushes.items subject }
    {
        match subject {
            Subject::Bad(j) => number_at(&self.bads, j),
            Subject::Block(o) => number_at(&self.blocks, o),
            Subject::Push(n) => number_at(&self.pushes, n),
        }
    }

    /// Makes room for the subject.
    pub(crate) fn cover(&mut self, subject: Subject) -> Result<(), AllocError>
        ensures same { (u : ASubject) → latest_at self.new.bads.items self.new.blocks.items self.new.pushes.items u ≡ latest_at self.old.bads.items self.old.blocks.items self.old.pushes.items u }
        ensures done { OnOk result (IsCoveredIn self.new.bads.items self.new.blocks.items self.new.pushes.items subject) }
    {
        match subject {
            Subject::Bad(j) => cover_at(&mut self.bads, j),
            Subject::Block(o) => cover_at(&mut self.blocks, o),
            Subject::Push(n) => cover_at(&mut self.pushes, n),
        }
    }

    pub(crate) fn set(&mut self, subject: Subject, number: usize)
        requires { IsCoveredIn self.old.bads.items self.old.blocks.items self.old.pushes.items subject }
        ensures here { latest_at self.new.bads.items self.new.blocks.items self.new.pushes.items subject ≡ Some number }
        ensures others { (u : ASubject) → (u ≡ subject → ⊥) → latest_at self.new.bads.items self.new.blocks.items self.new.pushes.items u ≡ latest_at self.old.bads.items self.old.blocks.items self.old.pushes.items u }
    {
        match subject {
            Subject::Bad(j) => set_at(&mut self.bads, j, number),
            Subject::Block(o) => set_at(&mut self.blocks, o, number),
            Subject::Push(n) => set_at(&mut self.pushes, n, number),
        }
    }
}

fn number_at(numbers: &[Option<usize>], i: usize) -> Option<usize>
    ensures { result ≡ slice_index_or numbers.now i None }
{
    if i < numbers.len() { numbers[i] } else { None }
}

fn cover_at(numbers: &mut Vec<Option<usize>>, i: usize) -> Result<(), AllocError>
    ensures same { (k : ℕ) → slice_index_or numbers.new.items k None ≡ slice_index_or numbers.old.items k None }
    ensures done { OnOk result (i < length numbers.new.items) }
{
    'places: while numbers.len() <= i {
        numbers.push(None)?;
    }
    Ok(())
}

fn set_at(numbers: &mut Vec<Option<usize>>, i: usize, number: usize)
    requires { i < length numbers.old.items }
    ensures { numbers.new.items ≡ slice_set numbers.old.items i (Some number) }
{
    numbers[i] = Some(number);
}
