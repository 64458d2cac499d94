//! Builds a formula's monitor from its operands up (Lichtenstein, Pnueli and Zuck 1985). Each
//! operator adds a bit or a gate, and clauses for initial states, steps and fairness sets.

ghost use Rattle.std.specs.Prelude.{◌≡◌, ◌+◌, ◌-◌, ◌∷◌, ◌++◌, [], IfOk, OnOk};
ghost use Rattle.clause_core.specs.Literals.{at, negate};
ghost use Rattle.ltl_meaning.specs.Ltl.{Ltl};
ghost use Rattle.ltl_meaning.specs.Temporal.{formula_of};
ghost use Rattle.ltl_meaning.specs.Unfolded.{repeated, delay, widen, unfolded};
ghost use Rattle.ltl_monitor.specs.Monitor.{unary_bits, binary_bits};
ghost use Rattle.ltl_monitor.specs.declared.draft.Draft.{Draft};
ghost use Rattle.ltl_monitor.specs.Drafting.{unary_rules, binary_rules, gate_added, set_added, start_added, unary_lit, binary_lit, unary_drafted, binary_drafted, drafted, plain, is_or, is_iff};

use crate::layout::{Both, Layout, sum};
use crate::rules::{push_and, push_and_or, push_iff, push_or, push_or_and, push_same};
use clause_core::{Clauses, Lit};
use ltl_meaning::node::{BinaryOperator, BoundedOperator, FormulaNode, UnaryOperator, Window};
use sqlite_items::Items;
use std::alloc::AllocError;

// What the formulas of a draft are about.
#[derive(Drop)]
pub struct Scene {
    pub layout: Layout,
    // The atoms, as literals of one state.
    pub atoms: Items<Lit>,
}

// The rules of the formulas that were added so far.
#[derive(Drop)]
pub struct Draft {
    // The number of the next temporal operator.
    pub node: usize,
    // The next variable of one state, for a gate.
    pub gate: usize,
    // What gives the gates, of one state.
    pub defs: Clauses,
    // The rules of an initial state, of one state.
    pub starts: Clauses,
    // The rules of a step, of the monitored system.
    pub rows: Clauses,
    // A literal for each set, of one state.
    pub sets: Items<Lit>,
}

// How many bits an operator has of its own.
pub fn unary_bits(operator: UnaryOperator) -> usize
    ensures { result ≡ unary_bits operator }
{
    match operator {
        UnaryOperator::Not => 0,
        UnaryOperator::Next
        | UnaryOperator::Finally
        | UnaryOperator::Globally
        | UnaryOperator::Yesterday
        | UnaryOperator::WeakYesterday
        | UnaryOperator::Once
        | UnaryOperator::Historically
        | UnaryOperator::NowOrNext
        | UnaryOperator::NowAndNext
        | UnaryOperator::NowOrBefore
        | UnaryOperator::NowAndBefore => 1,
    }
}

pub fn binary_bits(operator: BinaryOperator) -> usize
    ensures { result ≡ binary_bits operator }
{
    match operator {
        BinaryOperator::And
        | BinaryOperator::Or
        | BinaryOperator::Xor
        | BinaryOperator::Xnor
        | BinaryOperator::Implies
        | BinaryOperator::Iff => 0,
        BinaryOperator::Until
        | BinaryOperator::Releases
        | BinaryOperator::Since
        | BinaryOperator::Triggered => 1,
    }
}

fn unary_lit(operator: UnaryOperator, own: Lit, operand: Lit) -> Lit
    ensures { result ≡ unary_lit operator own operand }
{
    match operator {
        UnaryOperator::Not => operand.negated(),
        UnaryOperator::Next
        | UnaryOperator::Finally
        | UnaryOperator::Globally
        | UnaryOperator::Yesterday
        | UnaryOperator::WeakYesterday
        | UnaryOperator::Once
        | UnaryOperator::Historically
        | UnaryOperator::NowOrNext
        | UnaryOperator::NowAndNext
        | UnaryOperator::NowOrBefore
        | UnaryOperator::NowAndBefore => own,
    }
}

fn binary_lit(operator: BinaryOperator, own: Lit, gate: Lit) -> Lit
    ensures { result ≡ binary_lit operator own gate }
{
    match operator {
        BinaryOperator::And | BinaryOperator::Xor => gate.negated(),
        BinaryOperator::Or | BinaryOperator::Xnor | BinaryOperator::Implies | BinaryOperator::Iff =>
            gate,
        BinaryOperator::Until
        | BinaryOperator::Releases
        | BinaryOperator::Since
        | BinaryOperator::Triggered => own,
    }
}

// Adds an operator's rule of a step, of its own bit and its operand.
fn push_unary_row(
    rows: &mut Clauses,
    operator: UnaryOperator,
    b: Both,
    f: Both,
) -> Result<(), AllocError>
    ensures { OnOk result ((d : Draft) → d.rows ≡ rows.old → (unary_rules operator b f d).rows ≡ rows.new) }
{
    match operator {
        UnaryOperator::Not => Ok(()),
        UnaryOperator::Next => push_same(rows, b.now, f.next),
        UnaryOperator::Finally => push_or(rows, b.now, f.now, b.next),
        UnaryOperator::Globally => push_and(rows, b.now, f.now, b.next),
        UnaryOperator::Yesterday | UnaryOperator::WeakYesterday => push_same(rows, b.next, f.now),
        UnaryOperator::Once => push_or(rows, b.next, f.next, b.now),
        UnaryOperator::Historically => push_and(rows, b.next, f.next, b.now),
        UnaryOperator::NowOrNext => push_or(rows, b.now, f.now, f.next),
        UnaryOperator::NowAndNext => push_and(rows, b.now, f.now, f.next),
        UnaryOperator::NowOrBefore => push_or(rows, b.next, f.next, f.now),
        UnaryOperator::NowAndBefore => push_and(rows, b.next, f.next, f.now),
    }
}

// Adds an operator's rule of a step, of its own bit and its operands.
fn push_binary_row(
    rows: &mut Clauses,
    operator: BinaryOperator,
    b: Both,
    f: Both,
    g: Both,
) -> Result<(), AllocError>
    ensures { OnOk result ((d : Draft) → d.rows ≡ rows.old → (binary_rules operator b f g d).rows ≡ rows.new) }
{
    match operator {
        BinaryOperator::And
        | BinaryOperator::Or
        | BinaryOperator::Xor
        | BinaryOperator::Xnor
        | BinaryOperator::Implies
        | BinaryOperator::Iff => Ok(()),
        BinaryOperator::Until => push_or_and(rows, b.now, g.now, f.now, b.next),
        BinaryOperator::Releases => push_and_or(rows, b.now, g.now, f.now, b.next),
        BinaryOperator::Since => push_or_and(rows, b.next, g.next, f.next, b.now),
        BinaryOperator::Triggered => push_and_or(rows, b.next, g.next, f.next, b.now),
    }
}

impl Scene {
    // The literal of an atom that the list has.
    fn atom(&self, number: usize) -> Lit
        ensures { result ≡ at self.now.atoms number }
    {
        let atoms = self.atoms.as_slice();
        if number < atoms.len() {
            atoms[number]
        } else {
            Lit::new(0, false)
        }
    }
}

impl Draft {
    // Adds a gate that is x or y.
    pub fn or(&mut self, x: Lit, y: Lit) -> Result<(), AllocError>
        ensures { OnOk result (self.new ≡ gate_added (is_or (plain self.old.gate) x y) self.old) }
    {
        push_or(&mut self.defs, Lit::new(self.gate, true), x, y)?;
        self.gate = sum(self.gate, 1)?;
        Ok(())
    }

    // Adds a gate that is whether x and y are alike.
    fn iff(&mut self, x: Lit, y: Lit) -> Result<(), AllocError>
        ensures { OnOk result (self.new ≡ gate_added (is_iff (plain self.old.gate) x y) self.old) }
    {
        push_iff(&mut self.defs, Lit::new(self.gate, true), x, y)?;
        self.gate = sum(self.gate, 1)?;
        Ok(())
    }

    // Adds the set of the states where x or y is true.
    fn set(&mut self, x: Lit, y: Lit) -> Result<(), AllocError>
        ensures { OnOk result (self.new ≡ set_added x y self.old) }
    {
        let gate = Lit::new(self.gate, true);
        self.or(x, y)?;
        self.sets.push(gate)
    }

    // Adds the rules of an operator, of its own bit and its operand.
    fn unary_rules(&mut self, operator: UnaryOperator, b: Both, f: Both) -> Result<(), AllocError>
        ensures { OnOk result (self.new ≡ unary_rules operator b f self.old) }
    {
        push_unary_row(&mut self.rows, operator, b, f)?;
        self.unary_ends(operator, b, f)
    }

    // Adds the rule of an initial state, or the fairness set, of an operator.
    fn unary_ends(&mut self, operator: UnaryOperator, b: Both, f: Both) -> Result<(), AllocError>
        ensures { OnOk result (self.new ≡ record (unary_rules operator b f self.old) { rows = self.old.rows }) }
    {
        match operator {
            UnaryOperator::Not
            | UnaryOperator::Next
            | UnaryOperator::NowOrNext
            | UnaryOperator::NowAndNext => Ok(()),
            UnaryOperator::Finally => self.set(b.here.negated(), f.here),
            UnaryOperator::Globally => self.set(b.here, f.here.negated()),
            UnaryOperator::Yesterday => self.starts.push(&[b.here.negated()]),
            UnaryOperator::WeakYesterday => self.starts.push(&[b.here]),
            UnaryOperator::Once
            | UnaryOperator::Historically
            | UnaryOperator::NowOrBefore
            | UnaryOperator::NowAndBefore => push_same(&mut self.starts, b.here, f.here),
        }
    }

    // Adds the rules of an operator, of its own bit and its operands.
    fn binary_rules(
        &mut self,
        operator: BinaryOperator,
        b: Both,
        f: Both,
        g: Both,
    ) -> Result<(), AllocError>
        ensures { OnOk result (self.new ≡ binary_rules operator b f g self.old) }
    {
        push_binary_row(&mut self.rows, operator, b, f, g)?;
        self.binary_ends(operator, b, f, g)
    }

    // Adds the gate of an operator, or its rule of an initial state, or its fairness set.
    fn binary_ends(
        &mut self,
        operator: BinaryOperator,
        b: Both,
        f: Both,
        g: Both,
    ) -> Result<(), AllocError>
        ensures { OnOk result (self.new ≡ record (binary_rules operator b f g self.old) { rows = self.old.rows }) }
    {
        match operator {
            BinaryOperator::And => self.or(f.here.negated(), g.here.negated()),
            BinaryOperator::Or => self.or(f.here, g.here),
            BinaryOperator::Xor | BinaryOperator::Xnor | BinaryOperator::Iff => {
                self.iff(f.here, g.here)
            }
            BinaryOperator::Implies => self.or(f.here.negated(), g.here),
            BinaryOperator::Until => self.set(b.here.negated(), g.here),
            BinaryOperator::Releases => self.set(b.here, g.here.negated()),
            BinaryOperator::Since | BinaryOperator::Triggered => {
                push_same(&mut self.starts, b.here, g.here)
            }
        }
    }

    // Adds an operator over the operand that was added last.
    fn unary(
        &mut self,
        layout: &Layout,
        operator: UnaryOperator,
        operand: Lit,
    ) -> Result<Lit, AllocError>
        ensures { IfOk result (λ l. record { draft = self.new; lit = l } ≡ unary_drafted layout.now operator operand self.old) }
    {
        let own = Lit::new(sum(layout.given, self.node)?, true);
        self.unary_rules(operator, layout.both(own)?, layout.both(operand)?)?;
        self.node = sum(self.node, unary_bits(operator))?;
        Ok(unary_lit(operator, own, operand))
    }

    // Adds an operator over two operands, of which the right one was added last.
    fn binary(
        &mut self,
        layout: &Layout,
        operator: BinaryOperator,
        left: Lit,
        right: Lit,
    ) -> Result<Lit, AllocError>
        ensures { IfOk result (λ l. record { draft = self.new; lit = l } ≡ binary_drafted layout.now operator left right self.old) }
    {
        let own = Lit::new(sum(layout.given, self.node)?, true);
        let gate = Lit::new(self.gate, true);
        self.binary_rules(
            operator,
            layout.both(own)?,
            layout.both(left)?,
            layout.both(right)?,
        )?;
        self.node = sum(self.node, binary_bits(operator))?;
        Ok(binary_lit(operator, own, gate))
    }

    // Adds a formula, and that it is false in the first state.
    pub fn deny(&mut self, scene: &Scene, node: &FormulaNode) -> Result<(), AllocError>
        ensures { OnOk result (self.new ≡ (let x = drafted scene.now (unfolded (formula_of node.now)) self.old in start_added ((negate x.lit ∷ []) ∷ []) x.draft)) }
    {
        let whole = self.add(scene, node)?;
        self.starts.push(&[whole.negated()])
    }

    // Adds a gate that is true, and gives it or its negation.
    pub fn constant(&mut self, value: bool) -> Result<Lit, AllocError>
        ensures { IfOk result (λ l. (l ≡ record { var = self.old.gate; positive = value }) × (self.new ≡ gate_added ((plain self.old.gate ∷ []) ∷ []) self.old)) }
    {
        let gate = self.gate;
        self.defs.push(&[Lit::new(gate, true)])?;
        self.gate = sum(gate, 1)?;
        Ok(Lit::new(gate, value))
    }

    // Adds an operator so many times over the formula that was added last.
    fn repeated(
        &mut self,
        layout: &Layout,
        operator: UnaryOperator,
        times: u8,
        operand: Lit,
    ) -> Result<Lit, AllocError>
        ensures { IfOk result (λ l. (s : Scene) (f : Ltl) (d : Draft) → s.layout ≡ layout.now → record { draft = self.old; lit = operand } ≡ drafted s f d → record { draft = self.new; lit = l } ≡ drafted s (repeated operator times f) d) }
    {
        let mut whole = operand;
        for _ in 0..times {
            whole = self.unary(layout, operator, whole)?;
        }
        Ok(whole)
    }

    // Adds an operator with bounds over the formula that was added last.
    fn bounded(
        &mut self,
        layout: &Layout,
        operator: BoundedOperator,
        window: Window,
        operand: Lit,
    ) -> Result<Lit, AllocError>
        ensures { IfOk result (λ l. (s : Scene) (f : Ltl) (d : Draft) → s.layout ≡ layout.now → record { draft = self.old; lit = operand } ≡ drafted s f d → record { draft = self.new; lit = l } ≡ drafted s (repeated (delay operator) window.low (repeated (widen operator) (window.high - window.low) f)) d) }
    {
        let times = window.high - window.low;
        let wide = self.repeated(layout, operator.widen(), times, operand)?;
        self.repeated(layout, operator.delay(), window.low, wide)
    }

    // Adds a formula, operands first, and gives its literal.
    fn add(&mut self, scene: &Scene, node: &FormulaNode) -> Result<Lit, AllocError>
        ensures { IfOk result (λ l. record { draft = self.new; lit = l } ≡ drafted scene.now (unfolded (formula_of node.now)) self.old) }
    {
        match node {
            FormulaNode::Constant(value) => self.constant(*value),
            FormulaNode::Atom(number) => Ok(scene.atom(*number)),
            FormulaNode::Unary(operator, operand) => {
                let operand = self.add(scene, operand.get())?;
                self.unary(&scene.layout, *operator, operand)
            }
            FormulaNode::Bounded(operator, window, operand) => {
                let operand = self.add(scene, operand.get())?;
                self.bounded(&scene.layout, *operator, *window, operand)
            }
            FormulaNode::Implies(left, right) => {
                let left = self.add(scene, left.get())?;
                let right = self.add(scene, right.get())?;
                self.binary(&scene.layout, BinaryOperator::Implies, left, right)
            }
            FormulaNode::Chain(first, links) => {
                let mut all = self.add(scene, first.get())?;
                for link in links.as_slice() {
                    let operand = self.add(scene, &link.operand)?;
                    all = self.binary(&scene.layout, link.operator, all, operand)?;
                }
                Ok(all)
            }
        }
    }
}
