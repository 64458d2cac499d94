//! Lists of numbers, one after another in a single buffer.

ghost use Rattle.std.specs.Prelude.{◌≡◌, ◌<◌, List, [], ◌∷◌, ◌++◌, length, take, OnOk, OnErr, slice_index_or};

use std::alloc::{AllocError, Global};
use std::marker::Model;

/// Where a list lies in a buffer of numbers.
#[derive(Clone, Copy, Drop)]
pub struct Place {
    pub from: usize,
    pub len: usize,
}

/// Lists of numbers in one buffer. Contracts see the list of them.
#[derive(Drop)]
pub struct Numbers {
    numbers: Vec<usize>,
    places: Vec<Place>,
}

impl Model for Numbers {
    ghost use Rattle.std.specs.Prelude.{List, ℕ};
    ghost use Rattle.hinted_log.specs.Places.{lists, PlacesIn};

    ghost Value = { List (List ℕ) };

    ghost view = { λ n. lists n.numbers.items n.places.items };

    ghost invariant = { λ n. PlacesIn n.numbers.items n.places.items };
}

impl Numbers {
    /// No lists.
    pub fn new(alloc: Global) -> Numbers
        ensures { result ≡ [] }
    {
        Numbers {
            numbers: Vec::new(alloc),
            places: Vec::new(alloc),
        }
    }

    /// How many lists there are.
    pub fn len(&self) -> usize
        ensures { result ≡ length self.now }
    {
        self.places.len()
    }

    /// List number `k`, counted from 0.
    pub fn get(&self, k: usize) -> &[usize]
        requires { k < length self.now }
        ensures { result.now ≡ slice_index_or self.now k [] }
    {
        let place = self.places[k];
        let tail = &self.numbers[place.from..];
        &tail[..place.len]
    }

    /// Adds the list at the end. If memory runs out, the lists are as before.
    pub fn push(&mut self, list: &[usize]) -> Result<(), AllocError>
        ensures done { OnOk result (self.new ≡ self.old ++ list.now ∷ []) }
        ensures failed { OnErr result (self.new ≡ self.old) }
    {
        let from = self.numbers.as_slice().len();
        self.numbers.extend_from_slice(list)?;
        self.places.push(Place {
            from,
            len: list.len(),
        })?;
        Ok(())
    }

    /// Takes away all lists from number `k` on.
    pub fn truncate(&mut self, k: usize)
        ensures { self.new ≡ take k self.old }
    {
        self.places.truncate(k);
    }
}
