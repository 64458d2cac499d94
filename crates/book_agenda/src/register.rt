//! The claims that were made, and what became of them.

ghost use Rattle.std.specs.Prelude.{◌≡◌, ◌↔◌, true, IsTrue};

use crate::latest::Latest;
use frame_history::{Made, Subject};
use std::alloc::{AllocError, Global};
use std::marker::Model;

/// The claims that were made, one place for each entry of a history. An equal claim is looked up by the last
/// one of its subject. Contracts see the list of them, and how often a lemma was added or raised.
#[derive(Drop)]
pub struct Register {
    // for each entry the claim that it made, if it made one
    claims: Vec<Option<Made>>,
    // how often a lemma was added or raised
    growth: usize,
    // how many claims are out
    out: usize,
    // the number of the last claim of each subject
    latest: Latest,
}

impl Model for Register {
    ghost use Rattle.std.specs.Prelude.{vec_capacity};
    ghost use Rattle.book_agenda.specs.Register.{Claims, IsRegister};

    ghost Value = { Claims };

    ghost view = { λ r. record { made = r.claims.items; growth = r.growth } };

    ghost invariant = { λ r. IsRegister record { made = r.claims.items; growth = r.growth } r.out r.latest.bads.items r.latest.blocks.items r.latest.pushes.items (vec_capacity r.claims) };
}

impl Register {
    ghost use Rattle.std.specs.Prelude.{◌≡◌, ◌↔◌, ◌<◌, ◌+◌, ◌++◌, ◌∷◌, [], ℕ, Bool, true, false, length, slice_set, if◌then◌else◌, IsTrue, OnOk, OnErr, Some, None};
    ghost use Rattle.frame_history.specs.declared.entries.Made.{Made as AMade};
    ghost use Rattle.frame_history.specs.History.{claim_at, ended};
    ghost use Rattle.book_agenda.specs.Register.{Claims, IsNewIn, IsUpTo, AreOrderly, outs};

    /// No claims; takes no memory.
    pub fn new(alloc: Global) -> Register
        ensures { result ≡ record { made = []; growth = 0 } }
    {
        Register {
            claims: Vec::new(alloc),
            growth: 0,
            out: 0,
            latest: Latest::new(alloc),
        }
    }

    /// How often a lemma was added or raised.
    pub fn growth(&self) -> usize
        ensures value { result ≡ self.now.growth }
        ensures orderly { AreOrderly self.now }
    {
        self.growth
    }

    /// How many claims are out.
    pub fn out(&self) -> usize
        ensures { result ≡ outs self.now.made }
    {
        self.out
    }

    /// The claim that entry `n` made, if it made one.
    pub fn made(&self, n: usize) -> Option<Made>
        ensures { result ≡ claim_at self.now.made n }
    {
        if n < self.claims.len() {
            self.claims[n]
        } else {
            None
        }
    }

    /// Whether no equal claim was made since a lemma was last added or raised, but for those that are void.
    pub fn is_new(&self, subject: Subject, level: u32) -> bool
        requires { IsUpTo self.now subject level }
        ensures { IsTrue result ↔ IsNewIn self.now subject level }
    {
        match self.latest.get(subject) {
            None => true,
            Some(n) => match self.made(n) {
                None => true,
                Some(c) => lets_again(&c, level, self.growth),
            },
        }
    }

    /// Makes a claim, and room for the entry that ends it. If memory runs out, all is as before.
    pub fn claim(&mut self, worker: u32, subject: Subject, level: u32) -> Result<(), AllocError>
        requires new { IsNewIn self.old subject level }
        requires up_to { IsUpTo self.old subject level }
        ensures done { OnOk result (self.new ≡ record { made = self.old.made ++ Some record { worker = worker; subject = subject; level = level; growth = self.old.growth; out = true; void = false } ∷ []; growth = self.old.growth }) }
        ensures err { OnErr result (self.new ≡ self.old) }
    {
        self.latest.cover(subject)?;
        self.claims.reserve(self.out + 2)?;
        let number = self.claims.len();
        self.claims.push_reserved(Some(Made {
            worker,
            subject,
            level,
            growth: self.growth,
            out: true,
            void: false,
        }));
        self.out += 1;
        self.latest.set(subject, number);
        Ok(())
    }

    /// Ends claim `n`, which is out; where a lemma was added or raised, counts that. Takes no memory.
    pub fn end(&mut self, n: usize, made: Made, void: bool, grows: bool)
        requires made { claim_at self.old.made n ≡ Some made }
        requires out { made.out ≡ true }
        ensures { self.new ≡ record { made = slice_set self.old.made n (ended void (Some made)) ++ None ∷ []; growth = self.old.growth + (if grows then 1 else 0) } }
    {
        self.claims[n] = Some(Made {
            worker: made.worker,
            subject: made.subject,
            level: made.level,
            growth: made.growth,
            out: false,
            void,
        });
        self.claims.push_reserved(None);
        self.out -= 1;
        let _entries = self.claims.len();
        if grows {
            self.growth += 1;
        }
    }
}

// Whether the claim lets an equal one be made again at this level and growth.
fn lets_again(c: &Made, level: u32, growth: usize) -> bool
    ensures { IsTrue result ↔ (c.now.growth ≡ growth → c.now.level ≡ level → c.now.void ≡ true) }
{
    c.growth != growth || c.level != level || c.void
}
