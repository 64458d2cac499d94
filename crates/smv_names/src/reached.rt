//! The rules of instances: a type that is a name names a module, no module is an instance of itself, and an instance is
//! given what its module asks for.

ghost use Rattle.std.specs.Prelude.{◌≡◌, ◌<◌, List, length, IfOk, IfSome, MatchBool};
ghost use Rattle.digraph.specs.Cycles.{Closed};
ghost use Rattle.smv_tree.specs.declared.tree.Expr.{Expr};
ghost use Rattle.smv_tree.specs.declared.tree.Variable.{Variable};
ghost use Rattle.smv_scope.specs.Symbols.{AreNumbered};
ghost use Rattle.smv_names.specs.Marks.{MarksFromMain, MarksReach};
ghost use Rattle.smv_names.specs.Reached.{Miscounted, ReachesFrom, module_graph, section_verdict, use_verdict, uses_verdict};
ghost use Rattle.smv_verdicts.specs.Verdicts.{Each, Gives};
ghost use Rattle.smv_names.specs.declared.reached.UseRule.TheVariants as asked;

use crate::graph::{is_acyclic, module_graph, module_named};
use digraph::reached_from;
use smv_scope::{ModuleNumbers, is_array};
use smv_tree::{Program, Rule, Section, TextStop, TypeExpr, Variable};
use smv_verdicts::refuse_by;
use sqlite_items::Items;
use std::alloc::{AllocError, Global};

/// What is judged of variables whose types are names.
#[derive(Clone, Copy, Debug)]
pub enum UseRule {
    /// The name is no module's.
    Unknown,
    /// The module is an instance of itself.
    Cyclic,
    /// The module has more or fewer parameters than it is given expressions.
    Miscounted,
}

/// The modules of a program, and which use which.
#[derive(Drop)]
pub(crate) struct ModuleUses<'a> {
    pub program: &'a Program,
    pub numbers: &'a ModuleNumbers,
    /// Each module leads to those that it uses.
    pub graph: Vec<Items<usize>>,
    /// For each module whether `main` reaches it.
    pub reached: Vec<bool>,
    pub ghost numbered: { AreNumbered program.now.modules numbers.now },
    pub ghost leading: { graph.items ≡ module_graph program.now },
}

/// The modules of a program, and which use which.
pub(crate) fn module_uses<'a>(
    alloc: Global,
    program: &'a Program,
    numbers: &'a ModuleNumbers,
) -> Result<ModuleUses<'a>, AllocError>
    requires { AreNumbered program.now.modules numbers.now }
    ensures same { IfOk result (λ uses. uses.program.now ≡ program.now) }
    ensures reached { IfOk result (λ uses. MarksFromMain program.now uses.reached.items) }
{
    let graph = module_graph(alloc, program, numbers)?;
    let reached = modules_from_main(alloc, program, numbers, &graph)?;
    Ok(ModuleUses {
        program,
        numbers,
        graph,
        reached,
    })
}

// For each module whether `main` reaches it.
fn modules_from_main(
    alloc: Global,
    program: &Program,
    numbers: &ModuleNumbers,
    graph: &[Items<usize>],
) -> Result<Vec<bool>, AllocError>
    requires numbered { AreNumbered program.now.modules numbers.now }
    requires graph { graph.now ≡ module_graph program.now }
    ensures { IfOk result (λ reached. MarksFromMain program.now reached.items) }
{
    match module_named(program.modules.as_slice(), numbers, "main") {
        None => vec![in alloc; false; program.modules.len()],
        Some(main) => from_node(alloc, graph, main),
    }
}

// For each node whether it is this one, or this one leads to it.
fn from_node(alloc: Global, graph: &[Items<usize>], a: usize) -> Result<Vec<bool>, AllocError>
    requires closed { Closed graph.now }
    requires within { a < length graph.now }
    ensures { IfOk result (λ marks. MarksReach graph.now a marks.items) }
{
    let mut marks = reached_from(alloc, graph, a)?;
    marks[a] = true;
    Ok(marks)
}

/// No module is an instance of itself. Where the graph has no cycle, no use is asked.
pub(crate) fn judge_cycles(alloc: Global, uses: &ModuleUses) -> Result<(), TextStop>
    requires reached { MarksFromMain uses.now.program.now uses.now.reached.items }
    ensures { Gives result (uses_verdict asked.Cyclic uses.now.program.now) }
{
    if is_acyclic(alloc, &uses.graph)? {
        Ok(())
    } else {
        judge_uses(alloc, uses, UseRule::Cyclic)
    }
}

/// The verdict of a rule on the uses of modules, in the order of the source.
pub(crate) fn judge_uses(alloc: Global, uses: &ModuleUses, which: UseRule) -> Result<(), TextStop>
    requires reached { MarksFromMain uses.now.program.now uses.now.reached.items }
    ensures { Gives result (uses_verdict which uses.now.program.now) }
{
    for (n, m) in uses.program.modules.as_slice().iter().enumerate() {
        judge_sections(alloc, uses, which, n, m.sections.as_slice())?;
    }
    Ok(())
}

// The same of the sections of the module of this number.
fn judge_sections(
    alloc: Global,
    uses: &ModuleUses,
    which: UseRule,
    n: usize,
    sections: &[Section],
) -> Result<(), TextStop>
    requires reached { MarksFromMain uses.now.program.now uses.now.reached.items }
    requires within { n < length uses.now.program.now.modules }
    ensures { Gives result (Each (section_verdict which uses.now.program.now n) sections.now) }
{
    for section in sections {
        judge_section(alloc, uses, which, n, section)?;
    }
    Ok(())
}

fn judge_section(
    alloc: Global,
    uses: &ModuleUses,
    which: UseRule,
    n: usize,
    section: &Section,
) -> Result<(), TextStop>
    requires reached { MarksFromMain uses.now.program.now uses.now.reached.items }
    requires within { n < length uses.now.program.now.modules }
    ensures { Gives result (section_verdict which uses.now.program.now n section.now) }
{
    match section {
        Section::Variables(_, variables) => {
            judge_variables(alloc, uses, which, n, variables.as_slice())
        }
        _ => Ok(()),
    }
}

fn judge_variables(
    alloc: Global,
    uses: &ModuleUses,
    which: UseRule,
    n: usize,
    variables: &[Variable],
) -> Result<(), TextStop>
    requires reached { MarksFromMain uses.now.program.now uses.now.reached.items }
    requires within { n < length uses.now.program.now.modules }
    ensures { Gives result (Each (λ (v : Variable). use_verdict which uses.now.program.now n v v.declared) variables.now) }
{
    for variable in variables {
        judge_use(alloc, uses, which, n, variable)?;
    }
    Ok(())
}

fn judge_use(
    alloc: Global,
    uses: &ModuleUses,
    which: UseRule,
    n: usize,
    variable: &Variable,
) -> Result<(), TextStop>
    requires reached { MarksFromMain uses.now.program.now uses.now.reached.items }
    requires within { n < length uses.now.program.now.modules }
    ensures { Gives result (use_verdict which uses.now.program.now n variable.now variable.now.declared) }
{
    match &variable.declared {
        TypeExpr::Instance(place, name, given) => {
            let target = module_named(uses.program.modules.as_slice(), uses.numbers, name.as_str());
            match which {
                UseRule::Unknown => refuse_by(
                    alloc,
                    uses.reached[n] && target.is_none(),
                    Rule::UnknownModule,
                    *place,
                    name,
                ),
                UseRule::Cyclic => {
                    let cyclic = uses.reached[n]
                        && !is_array(variable)
                        && reaches(alloc, &uses.graph, target, n)?;
                    refuse_by(
                        alloc,
                        cyclic,
                        Rule::ModuleCycle,
                        variable.place,
                        &variable.name,
                    )
                }
                UseRule::Miscounted => {
                    let miscounted = uses.reached[n]
                        && is_miscounted(uses.program, given.len(), target);
                    refuse_by(alloc, miscounted, Rule::ArgumentCount, *place, name)
                }
            }
        }
        _ => Ok(()),
    }
}

// Whether the node a, if there is one, is b or leads to it.
fn reaches(
    alloc: Global,
    graph: &[Items<usize>],
    a: Option<usize>,
    b: usize,
) -> Result<bool, AllocError>
    requires closed { Closed graph.now }
    requires from { IfSome a (λ n. n < length graph.now) }
    requires to { b < length graph.now }
    ensures { IfOk result (λ r. MatchBool r (ReachesFrom graph.now a b) (ReachesFrom graph.now a b → ⊥)) }
{
    match a {
        None => Ok(false),
        Some(n) => {
            let marks = from_node(alloc, graph, n)?;
            Ok(marks[b])
        }
    }
}

// Whether a module, if there is one, has another number of parameters.
fn is_miscounted(program: &Program, given: usize, target: Option<usize>) -> bool
    ensures { (es : List Expr) → given ≡ length es → MatchBool result (Miscounted program.now es target) (Miscounted program.now es target → ⊥) }
{
    match target {
        None => false,
        Some(m) => match program.modules.as_slice().get(m) {
            None => given != 0,
            Some(found) => given != found.parameters.len(),
        },
    }
}
