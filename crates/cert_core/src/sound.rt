//! Derivations which show that the items of a model never fault.

ghost use Rattle.std.specs.Prelude.{◌≡◌, ◌<◌, IfOk, IfSome, None, Some, length, replicate, option_copied, slice_index_or, slice_set};
ghost use Rattle.cert_core.specs.declared.form.Form.TheVariants.{Plain};
ghost use Rattle.cert_core.specs.Blocks.{LogFits};

use crate::parts::{part_at, push_missing};
use hinted_log::Hinted;
use std::alloc::{AllocError, Global};
use std::marker::Model;

/// The steps that show of items that they never fault, by unit propagation; each may be missing. Contracts see the list
/// of them. Its type keeps that all of it can stand in a text.
#[derive(Drop)]
pub struct Sound {
    items: Vec<Option<Hinted>>,
}

impl Model for Sound {
    ghost use Rattle.std.specs.Prelude.{List, Option, All};
    ghost use Rattle.hinted_log.specs.Hints.{HintedLog};
    ghost use Rattle.cert_core.specs.declared.form.Form.TheVariants.{Plain};
    ghost use Rattle.cert_core.specs.Blocks.{PartFits};

    ghost Value = { List (Option HintedLog) };

    ghost view = { λ s. s.items.items };

    ghost invariant = { λ s. All (PartFits Plain) s.items.items };
}

impl Sound {
    /// For so many items, all of whose steps are missing.
    pub fn new(alloc: Global, count: usize) -> Result<Sound, AllocError>
        ensures { IfOk result (λ s. s ≡ replicate count None) }
    {
        let mut items = Vec::new(alloc);
        for item in 0..count {
            push_missing(&mut items)?;
        }
        Ok(Sound { items })
    }

    /// For how many items.
    pub fn len(&self) -> usize
        ensures { result ≡ length self.now }
    {
        self.items.len()
    }

    /// The steps of item number `item`, counted from 0, if they are there.
    pub fn steps(&self, item: usize) -> Option<&Hinted>
        ensures value { option_copied result ≡ slice_index_or self.now item None }
        ensures fits { IfSome result (λ log. LogFits Plain log.now) }
    {
        part_at(&self.items, item)
    }

    /// Gives the item these steps, in place of those that it may have.
    pub fn put(&mut self, item: usize, steps: Hinted)
        requires place { item < length self.old }
        requires fits { LogFits Plain steps }
        ensures { self.new ≡ slice_set self.old item (Some steps) }
    {
        self.items[item] = Some(steps);
    }
}
