//! The systems of a program, and states and inputs as bits.

ghost use Rattle.std.specs.Prelude.{◌≡◌, ◌<◌, length, true, IfOk};
ghost use Rattle.clause_core.specs.Assignments.{assignment_of};
ghost use Rattle.smv_tree.specs.declared.tree.Program.{Program};
ghost use Rattle.smv_meaning.specs.Runs.{is_state};
ghost use Rattle.bit_states.specs.Coding.{decoded, state_of};
ghost use Rattle.bit_states.specs.Values.{encoded_all};
ghost use Rattle.bit_system.specs.Building.{IsBuilt, system_of};

use bit_states::Layout;
use clause_core::{Bits, System};
use smv_meaning::{Inputs, State};
use std::alloc::{AllocError, Global};
use std::marker::Model;

/// The systems of a program, one for each of its specifications, and the coding of its states and inputs. Contracts see
/// the systems and where the bits stand.
#[derive(Drop)]
pub struct Built {
    layout: Layout,
    systems: Vec<System>,
}

impl Model for Built {
    ghost use Rattle.bit_system.specs.Building.{BitProgram};

    ghost Value = { BitProgram };

    ghost view = { λ b. record { layout = b.layout; systems = b.systems.items } };
}

impl Built {
    /// The systems, where the bits stand so; takes no memory.
    pub fn new(layout: Layout, systems: Vec<System>) -> Built
        ensures { result ≡ record { layout = layout; systems = systems.items } }
    {
        Built { layout, systems }
    }

    /// How many specifications there are.
    pub fn len(&self) -> usize
        ensures { result ≡ length self.now.systems }
    {
        self.systems.as_slice().len()
    }

    /// The system of specification number `spec`, counted from 0.
    pub fn system_of(&self, spec: usize) -> &System
        requires { spec < length self.now.systems }
        ensures { result.now ≡ system_of self.now spec }
    {
        &self.systems[spec]
    }

    /// The systems, one for each specification, in the order of the items.
    pub fn systems(&self) -> &[System]
        ensures { result.now ≡ self.now.systems }
    {
        &self.systems
    }

    /// Where the bits stand.
    pub fn layout(&self) -> &Layout
        ensures { result.now ≡ self.now.layout }
    {
        &self.layout
    }

    /// The bits of a state. Time and memory grow with them; the only error is running out of memory.
    pub fn encode(&self, alloc: Global, s: &State) -> Result<Bits, AllocError>
        ensures values { IfOk result (λ bits. bits ≡ encoded_all self.now.layout.state_types s.now) }
        ensures code { (p : Program) → IsBuilt p self.now → is_state p s.now ≡ true → IfOk result (λ bits. state_of p (assignment_of bits) ≡ s.now) }
    {
        let bits = self.layout().encode(alloc, s)?;
        Ok(Bits::from_vec(bits))
    }

    /// The state that the bits are; bits past the end of the list are false. The only error is running out of memory.
    pub fn decode(&self, alloc: Global, bits: &Bits) -> Result<State, AllocError>
        ensures { IfOk result (λ s. s ≡ decoded self.now.layout.state_types self.now.layout.state (assignment_of bits.now)) }
    {
        self.layout.decode(alloc, bits.as_slice())
    }

    /// The inputs of a step that the values of all bits are. The only error is running out of memory.
    pub fn decode_inputs(&self, alloc: Global, bits: &Bits) -> Result<Inputs, AllocError>
        ensures { IfOk result (λ u. u ≡ decoded self.now.layout.input_types self.now.layout.inputs (assignment_of bits.now)) }
    {
        self.layout.decode_inputs(alloc, bits.as_slice())
    }
}
