//! Modules of which an instance was judged, each with the declarations that may break a rule in another instance.

ghost use Rattle.std.specs.Prelude.{◌≡◌, ℕ, None, Some, nat_eq, IfOk, OnOk};
ghost use Rattle.std.specs.HashMap.{get};
ghost use Rattle.smv_tree.specs.declared.tree.Program.{Program};
ghost use Rattle.smv_scope.specs.Modules.{sections_of};
ghost use Rattle.smv_scope.specs.Instances.{module_at};
ghost use Rattle.smv_verdicts.specs.Verdicts.{first_of};
ghost use Rattle.smv_declared.specs.Closed.{AreJudged, SayAll, SayInSections, read};
ghost use Rattle.smv_declared.specs.Refusals.{types_refusal_in};

use crate::closed::is_closed_variable;
use smv_scope::{Scope, variables_of};
use smv_tree::{Section, Variable, VariableKind};
use std::alloc::{AllocError, Global};
use std::collections::HashMap;

pub(crate) fn none_judged<'a>(alloc: Global) -> HashMap<usize, Vec<(VariableKind, &'a Variable)>>
    ensures { (p : Program) → AreJudged p (get nat_eq result) }
{
    HashMap::new(alloc)
}

// From now on an instance of the module of this number was judged, which has these sections.
pub(crate) fn note<'a>(
    alloc: Global,
    scope: &Scope,
    judged: &mut HashMap<usize, Vec<(VariableKind, &'a Variable)>>,
    from: usize,
    m: usize,
    sections: &'a [Section],
) -> Result<(), AllocError>
    requires sections { sections.now ≡ sections_of scope.now.program m }
    requires kept { first_of (types_refusal_in scope.now.program from) sections.now ≡ None }
    requires is { module_at scope.now.program from ≡ Some m }
    requires judged { AreJudged scope.now.program (get nat_eq judged.old) }
    ensures { OnOk result (AreJudged scope.now.program (get nat_eq judged.new)) }
{
    let again = open_variables(alloc, scope, from, sections)?;
    judged.insert(m, again)?;
    Ok(())
}

// The variables of these sections whose types may be others in another instance of the module of this one.
fn open_variables<'a>(
    alloc: Global,
    scope: &Scope,
    from: usize,
    sections: &'a [Section],
) -> Result<Vec<(VariableKind, &'a Variable)>, AllocError>
    requires { first_of (types_refusal_in scope.now.program from) sections.now ≡ None }
    ensures { IfOk result (λ again. SayInSections scope.now.program (module_at scope.now.program from) sections.now (read again.items)) }
{
    let all = variables_of(alloc, sections)?;
    open_among(alloc, scope, from, all.as_slice())
}

fn open_among<'a>(
    alloc: Global,
    scope: &Scope,
    from: usize,
    all: &[(VariableKind, &'a Variable)],
) -> Result<Vec<(VariableKind, &'a Variable)>, AllocError>
    ensures { IfOk result (λ again. SayAll scope.now.program from (read all.now) (read again.items)) }
{
    let mut again = Vec::new(alloc);
    for x in all {
        if !is_closed_variable(scope, from, x.1) {
            again.push(*x)?;
        }
    }
    Ok(again)
}
