//! The rules of names, in three parts, in the order in which they are judged: of modules, of how many instances there
//! are, and of the names in them.

ghost use Rattle.std.specs.Prelude.{◌≡◌, IfOk};
ghost use Rattle.smv_scope.specs.Modules.{main_number};
ghost use Rattle.smv_scope.specs.Symbols.{AreNumbered};
ghost use Rattle.smv_names.specs.Reached.{place_of_main, too_many_instances, uses_verdict};
ghost use Rattle.smv_names.specs.Rules.{instance_names_verdict, module_rules_verdict};
ghost use Rattle.smv_verdicts.specs.Verdicts.{Gives, Judges, Then};
ghost use Rattle.smv_names.specs.declared.reached.UseRule.TheVariants as asked;

use crate::declared::declared;
use crate::defined::definitions;
use crate::graph::module_named;
use crate::names::unknown_names;
use crate::reached::{UseRule, judge_cycles, judge_uses, module_uses};
use smv_scope::{LayoutStop, ModuleNumbers, Scope, lay_out, module_numbers};
use smv_tree::{Place, Program, Rule, TextStop};
use smv_verdicts::{START, refused};
use std::alloc::Global;

/// The place of the name of `main`, where the modules break no rule of names; else the first rule that they break, at
/// that rule's first place.
///
/// The rules, in the order in which they are judged, which is an own choice of this project as their numbers and places
/// are (NuSMV 2.6 User Manual, chapter 2, says what is asked, and not in which order). Of each module of the text:
///
/// - `DuplicateModule`: two modules have one name. At the keyword of the second; the detail is the name.
/// - `NoMain`: there is no module `main` (manual 2.3.12). At the first byte, with no detail.
/// - `MainHasParameters`: the module `main` has parameters (2.3.12). At the first of them, with no detail.
/// - `DuplicateName`: a module declares a name twice, as parameter, variable or definition. At the second declaration;
///   the detail is the name.
///
/// Of the modules that `main` reaches, in the order of the text:
///
/// - `UnknownModule`: the type of a variable, or of the elements of an array, is a name, and no module's (2.3.11). At
///   the name; it is the detail.
/// - `ModuleCycle`: a module is an instance of itself (2.3.11). At the variable that leads back; the detail is its
///   name.
/// - `ArgumentCount`: an instance, or the instances of an array, are given more or fewer expressions than their module
///   has parameters (2.3.11). At the module's name; it is the detail.
///
/// `NoMemory` comes where memory was refused, which may be at any time.
pub fn check_modules(alloc: Global, program: &Program) -> Result<Place, TextStop>
    ensures place { IfOk result (λ place. place ≡ place_of_main program.now (main_number program.now)) }
    ensures judged { Gives result (module_rules_verdict program.now) }
{
    declared(alloc, program)?;
    used(alloc, program)
}

// The place of the name of `main`, where the uses of modules break no rule.
fn used(alloc: Global, program: &Program) -> Result<Place, TextStop>
    ensures place { IfOk result (λ place. place ≡ place_of_main program.now (main_number program.now)) }
    ensures judged { Gives result (Then (uses_verdict asked.Unknown program.now) (Then (uses_verdict asked.Cyclic program.now) (uses_verdict asked.Miscounted program.now))) }
{
    let numbers = module_numbers(alloc, program.modules.as_slice())?;
    uses(alloc, program, &numbers)?;
    Ok(place_of_main(program, &numbers))
}

// The uses of modules break no rule.
fn uses(alloc: Global, program: &Program, numbers: &ModuleNumbers) -> Result<(), TextStop>
    requires { AreNumbered program.now.modules numbers.now }
    ensures { Gives result (Then (uses_verdict asked.Unknown program.now) (Then (uses_verdict asked.Cyclic program.now) (uses_verdict asked.Miscounted program.now))) }
{
    let uses = module_uses(alloc, program, numbers)?;
    judge_uses(alloc, &uses, UseRule::Unknown)?;
    judge_cycles(alloc, &uses)?;
    judge_uses(alloc, &uses, UseRule::Miscounted)
}

/// The program with its instances, where there are not too many; `main` is the place of the name of `main`.
///
/// - `TooManyInstances`: there are more than 100000. At the name of `main`, with no detail.
///
/// `NoMemory` comes where memory was refused, which may be at any time.
pub fn lay_out_instances(alloc: Global, program: Program, main: Place) -> Result<Scope, TextStop>
    requires { main ≡ place_of_main program (main_number program) }
    ensures same { IfOk result (λ scope. scope.program ≡ program) }
    ensures judged { Judges result (too_many_instances program) }
{
    match lay_out(alloc, program) {
        Ok(scope) => Ok(scope),
        Err(LayoutStop::TooManyInstances) => Err(refused(Rule::TooManyInstances, main)),
        Err(LayoutStop::NoMemory) => Err(TextStop::NoMemory),
    }
}

/// Whether the names of the instances break no rule; else the first rule that they break, at that rule's first place.
/// Of the instances, in preorder, and in each in the order of the text:
///
/// - `UnknownName`: an identifier of a name leads nowhere, or one before others to no instance (2.3.13). At the
///   identifier; it is the detail. Names stand in expressions, in what instances are given, and in the bounds and
///   widths of types, those of arrays before the types of their elements. The elements of an enumeration are no names.
/// - `DefineCycle`: a definition leads to itself, by definitions and by what parameters were given (2.3.2). At the
///   definition; the detail is its name.
///
/// `NoMemory` comes where memory was refused, which may be at any time.
pub fn check_names(alloc: Global, scope: &Scope) -> Result<(), TextStop>
    ensures { Gives result (instance_names_verdict scope.now.program) }
{
    unknown_names(alloc, scope)?;
    definitions(alloc, scope)
}

// The place of the name of `main`.
fn place_of_main(program: &Program, numbers: &ModuleNumbers) -> Place
    requires { AreNumbered program.now.modules numbers.now }
    ensures { result ≡ place_of_main program.now (main_number program.now) }
{
    match module_named(program.modules.as_slice(), numbers, "main") {
        None => START,
        Some(main) => match program.modules.get(main) {
            None => START,
            Some(found) => found.name_place,
        },
    }
}
