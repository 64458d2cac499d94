//! How an operator's truth follows from its operands at that time and its own truth at a
//! neighbouring one.

ghost use Rattle.std.specs.Prelude.{◌≡◌};
ghost use Rattle.ltl_table.specs.Columns.{combine, stepped, outset};

// How an operator of two operands is computed from its operands at the same time.
#[derive(Clone, Copy)]
pub enum Connective {
    And,
    Or,
    Xor,
    Implies,
    Iff,
}

// How an operator is computed from its operands at one time and its own value at the neighbouring
// one: as `U` and `S` are, or as their duals `V` and `T`.
#[derive(Clone, Copy)]
pub enum Step {
    Until,
    Releases,
}

pub fn combine(connective: Connective, left: bool, right: bool) -> bool
    ensures { result ≡ combine connective left right }
{
    match connective {
        Connective::And => left && right,
        Connective::Or => left || right,
        Connective::Xor => left != right,
        Connective::Implies => !left || right,
        Connective::Iff => left == right,
    }
}

// The value at a time, where `neighbour` is that at the next or the last one.
pub fn stepped(step: Step, left: bool, right: bool, neighbour: bool) -> bool
    ensures { result ≡ stepped step left right neighbour }
{
    match step {
        Step::Until => right || (left && neighbour),
        Step::Releases => right && (left || neighbour),
    }
}

// The initial value of the fixpoint: false for until and since (least), true for their duals (greatest).
pub fn outset(step: Step) -> bool
    ensures { result ≡ outset step }
{
    match step {
        Step::Until => false,
        Step::Releases => true,
    }
}
