//! The types of a program's variables, and how many slots it may have.

ghost use Rattle.std.specs.Prelude.{◌≡◌, IfOk};
ghost use Rattle.smv_declared.specs.Refusals.{declared_refusal};
ghost use Rattle.smv_declared.specs.Types.{variable_types_of};
ghost use Rattle.smv_types.specs.Kinds.{too_many_slots};
ghost use Rattle.smv_verdicts.specs.Verdicts.{Judges, or_else};

use smv_declared::{Declared, VariableType, declared_types};
use smv_scope::Scope;
use smv_tree::{Rule, TextStop};
use smv_verdicts::{START, refused};
use sqlite_items::Items;
use std::alloc::Global;

/// What each variable is declared as, where no declaration breaks a rule and there are not too many slots.
pub(crate) fn variable_types(alloc: Global, scope: &Scope) -> Result<Items<VariableType>, TextStop>
    ensures judged { Judges result (or_else (declared_refusal scope.now.program) (too_many_slots scope.now.program)) }
    ensures types { IfOk result (λ types. types ≡ variable_types_of scope.now.program) }
{
    match declared_types(alloc, scope)? {
        Declared::Types(types) => Ok(types),
        Declared::TooMany => Err(refused(Rule::TooManySlots, START)),
    }
}
