//! A sound block while it is read: items in order, each with its derivation.

ghost use Rattle.std.specs.Prelude.{◌≡◌, ◌∷◌, [], IfOk, None, Some, replicate};
ghost use Rattle.clause_core.specs.Literals.{Within};
ghost use Rattle.cert_core.specs.Blocks.{HintsFit};
ghost use Rattle.cert_core.specs.declared.form.Form.TheVariants.{Plain};
ghost use Rattle.cert_text.specs.Open.{no_steps, closed_items, item_line, item_step_line, Makes};

use cert_core::{MAX_VARS, Sound};
use clause_core::Lit;
use hinted_log::Hinted;
use std::alloc::{AllocError, Global};
use std::marker::Model;
use std::mem;

/// A sound block that is being read.
#[derive(Drop)]
pub struct OpenSound {
    items: Sound,
    item: Option<usize>,
    steps: Hinted,
}

impl Model for OpenSound {
    ghost use Rattle.cert_text.specs.Open.{OpenItems, IsOpenItems};

    ghost Value = { OpenItems };

    ghost view = { λ o. record { items = o.items; item = o.item; steps = o.steps } };

    ghost invariant = { λ o. IsOpenItems record { items = o.items; item = o.item; steps = o.steps } };
}

impl OpenSound {
    ghost use Rattle.cert_text.specs.Open.{OpenItems};

    /// Only its first line was read.
    pub fn new(alloc: Global, items: usize) -> Result<OpenSound, AllocError>
        ensures { IfOk result (λ o. o ≡ record { items = replicate items None; item = None; steps = no_steps }) }
    {
        let items = Sound::new(alloc, items)?;
        Ok(OpenSound {
            items,
            item: None,
            steps: Hinted::new(alloc),
        })
    }

    // The item that was read gets its steps.
    fn close(&mut self, alloc: Global)
        ensures { self.new ≡ record { items = closed_items self.old; item = None; steps = no_steps } }
    {
        let steps = mem::replace(&mut self.steps, Hinted::new(alloc));
        match self.item {
            None => {}
            Some(item) => {
                self.item = None;
                self.items.put(item, steps);
            }
        }
    }

    /// Reads the line of an item, if it may stand here.
    pub fn begin(&mut self, alloc: Global, item: usize) -> bool
        ensures { Makes (item_line self.old (Some item)) self.new result }
    {
        self.close(alloc);
        if item >= self.items.len() {
            return false;
        }
        if self.items.steps(item).is_some() {
            return false;
        }
        self.item = Some(item);
        true
    }

    /// Reads a step, if it may stand here.
    pub fn add_step(&mut self, lits: &[Lit], hints: &[usize]) -> Result<bool, AllocError>
        requires within { Within MAX_VARS lits.now }
        requires hints { HintsFit Plain (hints.now ∷ []) }
        ensures { IfOk result (Makes (item_step_line self.old (Some record { lits = lits.now; hints = hints.now })) self.new) }
    {
        if self.item.is_none() {
            return Ok(false);
        }
        self.steps.push(lits, hints)?;
        Ok(true)
    }

    /// The block as it was read.
    pub fn finish(self, alloc: Global) -> Sound
        ensures { result ≡ closed_items self }
    {
        let mut open = self;
        open.close(alloc);
        let OpenSound { items, .. } = open;
        items
    }
}
