//! A course: the states along a run of a counted system, with the marks of sets that were seen, and how many signals
//! came before each.

use clause_core::Bits;
use frame_core::BitRun;
use ltl_monitor::Monitored;
use std::alloc::{AllocError, Global};

// A state of the monitored system with a mark for each set that was seen, and how many signals came before it.
#[derive(Drop)]
struct Place {
    state: Bits,
    signals: usize,
}

// The places along a run.
#[derive(Drop)]
pub(crate) struct Course {
    // How many bits the monitored system has.
    bits: usize,
    // How many bits a state has here: those, and a mark for each set.
    marked: usize,
    places: Vec<Place>,
}

impl Course {
    // The course of a run of a system that counts up to so many signals.
    pub(crate) fn of(
        alloc: Global,
        monitored: &Monitored,
        run: &BitRun,
        counter: usize,
    ) -> Result<Course, AllocError> {
        let bits = monitored.system.state_bits();
        let mut course = Course {
            bits,
            marked: bits.saturating_add(monitored.system.fair().len()),
            places: Vec::new(alloc),
        };
        course.follow(alloc, run, 0, counter)?;
        Ok(course)
    }

    // Goes on along a run, from its row `first` on, whose counter begins anew behind the last state.
    pub(crate) fn follow(
        &mut self,
        alloc: Global,
        run: &BitRun,
        first: usize,
        counter: usize,
    ) -> Result<(), AllocError> {
        let before = self.signals();
        for k in first..run.len() {
            let row = run.row(k).as_slice();
            let end = self.marked.min(row.len());
            let counted = number_of_true(row, end, end.saturating_add(counter));
            self.places.push(Place {
                state: Bits::from_slice(alloc, &row[..end])?,
                signals: before.saturating_add(counted),
            })?;
        }
        Ok(())
    }

    // How many signals came before the last state.
    pub(crate) fn signals(&self) -> usize {
        match self.places.as_slice().last() {
            Some(place) => place.signals,
            None => 0,
        }
    }

    // How many bits a state has without marks.
    pub(crate) fn bits(&self) -> usize {
        self.bits
    }

    // The last state with its marks.
    pub(crate) fn last(&self) -> Option<&Bits> {
        match self.places.as_slice().last() {
            Some(place) => Some(&place.state),
            None => None,
        }
    }

    // Whether the same state comes again, and each set was met on the way.
    fn closes(&self, first: &Place, again: &Place) -> bool {
        let signals = again.signals.saturating_sub(first.signals);
        let met = signals > 1 || (signals == 1 && is_unmarked(first, self.bits));
        met && own(first, self.bits) == own(again, self.bits)
    }

    // The number of the first place whose state came before, where each set was met on the way. Places past the bound
    // are not looked at: a lasso that closes there has more states.
    pub(crate) fn closing(&self, bound: usize) -> Option<usize> {
        for again in 0..self.places.len().min(bound.saturating_add(1)) {
            for first in 0..again {
                if self.closes(&self.places[first], &self.places[again]) {
                    return Some(again);
                }
            }
        }
        None
    }

    // So many states of the monitored system, from the first on.
    pub(crate) fn states(&self, alloc: Global, count: usize) -> Result<Vec<Bits>, AllocError> {
        let mut states = Vec::new(alloc);
        for k in 0..count.min(self.places.len()) {
            states.push(Bits::from_slice(alloc, own(&self.places[k], self.bits))?)?;
        }
        Ok(states)
    }
}

// The state of the monitored system, which has so many bits.
fn own(place: &Place, bits: usize) -> &[bool] {
    let state = place.state.as_slice();
    &state[..bits.min(state.len())]
}

// Whether no set was seen since the last signal.
fn is_unmarked(place: &Place, bits: usize) -> bool {
    let state = place.state.as_slice();
    number_of_true(state, bits, state.len()) == 0
}

// How many values are true, from one on and before another.
fn number_of_true(values: &[bool], from: usize, to: usize) -> usize {
    let mut number: usize = 0;
    for k in from..to.min(values.len()) {
        if values[k] {
            number = number.saturating_add(1);
        }
    }
    number
}
