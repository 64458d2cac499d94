//! The rules of what modules declare: each module has a name of its own, there is a module `main` without parameters,
//! and a module declares each name once.

ghost use Rattle.std.specs.Prelude.{◌≡◌, ◌++◌, [], map, IfOk, OnOk};
ghost use Rattle.std.specs.List.{flat_map};
ghost use Rattle.smv_tree.specs.declared.tree.Definition.{Definition};
ghost use Rattle.smv_tree.specs.declared.tree.Module.{Module};
ghost use Rattle.smv_tree.specs.declared.tree.Parameter.{Parameter};
ghost use Rattle.smv_tree.specs.declared.tree.Variable.{Variable};
ghost use Rattle.smv_names.specs.Declarations.{declared_names, declared_refusal, duplicate_modules, duplicate_names, first_parameter, has_module, main_parameters, names_declared_in, no_main, parameters_of_main, repeated};
ghost use Rattle.smv_names.specs.Lent.{read_names};
ghost use Rattle.smv_verdicts.specs.Verdicts.{Judges, first_of};

use crate::known::add_name;
use plain_text::Text;
use smv_tree::{Definition, Module, Parameter, Place, Program, Rule, Section, TextStop, Variable};
use smv_verdicts::{START, refuse_name, refused};
use std::alloc::{AllocError, Global};
use std::collections::HashSet;

// What the program's modules declare breaks no rule.
pub(crate) fn declared(alloc: Global, program: &Program) -> Result<(), TextStop>
    ensures { Judges result (declared_refusal program.now) }
{
    duplicate_modules(alloc, program)?;
    no_main(program)?;
    main_parameters(program)?;
    duplicate_names(alloc, program)
}

// Each module has a name of its own.
fn duplicate_modules(alloc: Global, program: &Program) -> Result<(), TextStop>
    ensures { Judges result (duplicate_modules program.now) }
{
    let names = module_names(alloc, program.modules.as_slice())?;
    repeated(alloc, Rule::DuplicateModule, names.as_slice())
}

// The names of the modules.
fn module_names(alloc: Global, modules: &[Module]) -> Result<Vec<(Place, &Text)>, AllocError>
    ensures { IfOk result (λ names. read_names names.items ≡ map (λ (m : Module). (m.place, m.name)) modules.now) }
{
    let mut names = Vec::new(alloc);
    for m in modules {
        names.push((m.place, &m.name))?;
    }
    Ok(names)
}

// There is a module `main`.
fn no_main(program: &Program) -> Result<(), TextStop>
    ensures { Judges result (no_main program.now) }
{
    if has_module("main", program.modules.as_slice()) {
        Ok(())
    } else {
        Err(refused(Rule::NoMain, START))
    }
}

// Whether there is a module of this name.
fn has_module(name: &str, modules: &[Module]) -> bool
    ensures { result ≡ has_module name.now modules.now }
{
    modules.iter().any(|m| name == m.name.as_str())
}

// A module `main` has no parameters.
fn main_parameters(program: &Program) -> Result<(), TextStop>
    ensures { Judges result (main_parameters program.now) }
{
    for m in program.modules.as_slice() {
        parameters_of_main(m)?;
    }
    Ok(())
}

fn parameters_of_main(m: &Module) -> Result<(), TextStop>
    ensures { Judges result (parameters_of_main m.now) }
{
    if "main" == m.name.as_str() {
        first_parameter(m.parameters.as_slice())
    } else {
        Ok(())
    }
}

fn first_parameter(parameters: &[Parameter]) -> Result<(), TextStop>
    ensures { Judges result (first_parameter parameters.now) }
{
    match parameters.first() {
        None => Ok(()),
        Some(parameter) => Err(refused(Rule::MainHasParameters, parameter.place)),
    }
}

// Each module declares each name once.
fn duplicate_names(alloc: Global, program: &Program) -> Result<(), TextStop>
    ensures { Judges result (duplicate_names program.now) }
{
    for m in program.modules.as_slice() {
        let names = declared_names(alloc, m)?;
        repeated(alloc, Rule::DuplicateName, names.as_slice())?;
    }
    Ok(())
}

// The first name that stands among those before it.
fn repeated(alloc: Global, rule: Rule, names: &[(Place, &Text)]) -> Result<(), TextStop>
    ensures { Judges result (repeated rule [] (read_names names.now)) }
{
    let mut seen = HashSet::new(alloc);
    for named in names {
        if !add_name(&mut seen, named.1)? {
            return refuse_name(alloc, rule, named.0, named.1);
        }
    }
    Ok(())
}

// The names that a module declares, in the order of the text.
fn declared_names(alloc: Global, m: &Module) -> Result<Vec<(Place, &Text)>, AllocError>
    ensures { IfOk result (λ names. read_names names.items ≡ declared_names m.now) }
{
    let mut names = Vec::new(alloc);
    push_parameters(&mut names, m.parameters.as_slice())?;
    for section in m.sections.as_slice() {
        push_names(&mut names, section)?;
    }
    Ok(names)
}

// Adds the names that a section declares.
fn push_names<'a>(
    names: &mut Vec<(Place, &'a Text)>,
    section: &'a Section,
) -> Result<(), AllocError>
    ensures { OnOk result (read_names names.new.items ≡ read_names names.old.items ++ names_declared_in section.now) }
{
    match section {
        Section::Variables(_, variables) => push_variables(names, variables.as_slice()),
        Section::Definitions(definitions) => push_definitions(names, definitions.as_slice()),
        _ => Ok(()),
    }
}

// Adds the names of parameters.
fn push_parameters<'a>(
    names: &mut Vec<(Place, &'a Text)>,
    parameters: &'a [Parameter],
) -> Result<(), AllocError>
    ensures { OnOk result (read_names names.new.items ≡ read_names names.old.items ++ map (λ (x : Parameter). (x.place, x.name)) parameters.now) }
{
    for parameter in parameters {
        names.push((parameter.place, &parameter.name))?;
    }
    Ok(())
}

// Adds the names of variables.
fn push_variables<'a>(
    names: &mut Vec<(Place, &'a Text)>,
    variables: &'a [Variable],
) -> Result<(), AllocError>
    ensures { OnOk result (read_names names.new.items ≡ read_names names.old.items ++ map (λ (v : Variable). (v.place, v.name)) variables.now) }
{
    for variable in variables {
        names.push((variable.place, &variable.name))?;
    }
    Ok(())
}

// Adds the names of definitions.
fn push_definitions<'a>(
    names: &mut Vec<(Place, &'a Text)>,
    definitions: &'a [Definition],
) -> Result<(), AllocError>
    ensures { OnOk result (read_names names.new.items ≡ read_names names.old.items ++ map (λ (d : Definition). (d.place, d.name)) definitions.now) }
{
    for definition in definitions {
        names.push((definition.place, &definition.name))?;
    }
    Ok(())
}
