//! Reads a source: tokens, grammar, modules, instances, names, depth, types and kinds, assignments, and the number of
//! bits, in this order.

ghost use Rattle.std.specs.Prelude.{◌≡◌, ◌≤◌, IfOk, IfErr};
ghost use Rattle.bit_states.specs.Layouts.{bit_limit, bits_of};
ghost use Rattle.smv_front.specs.Sources.{IsModel, IsSourceStop, IsWidthStop};

use bit_states::is_narrow;
use smv_flat::{Flat, flatten};
use smv_names::{check_modules, check_names, lay_out_instances};
use smv_parse::parse;
use smv_text::tokens;
use smv_tree::{Place, Refusal, Rule, TextStop};
use smv_types::{check, resolve_items};
use std::alloc::Global;

// The model, where a state and the inputs of a step have no more bits than they may have.
fn narrow(alloc: Global, flat: Flat) -> Result<Flat, TextStop>
    ensures same { IfOk result (λ r. r ≡ flat) }
    ensures narrow { IfOk result (λ r. bits_of flat.typed.scope.program ≤ bit_limit) }
    ensures refused { IfErr result (IsWidthStop flat.typed.scope.program) }
{
    if is_narrow(alloc, &flat.typed)? {
        return Ok(flat);
    }
    Err(TextStop::Refused(Refusal {
        rule: Rule::TooManyBits,
        place: Place { line: 1, column: 1 },
        detail: None,
    }))
}

/// The model that the bytes of a source are (NuSMV 2.6 User Manual, chapter 2, without real time and CTL; what is
/// refused, by which rule, and in which order, is an own choice of this project).
///
/// Bytes that are none are refused by the first rule that they break, at that rule's first place, in this order:
/// - the rules of tokens: 105, then 101 to 104;
/// - the rules of the grammar: 203, then 201 and 202;
/// - the rules of modules: 303, 301, 302, 305, 306, 308 and 307;
/// - 311, of how many instances there are;
/// - the rules of names: 304 and 309;
/// - 310, of depth;
/// - the rules of declarations: 401, 404, 403, 402, 410 and 409, declaration by declaration, and then 312, of how many
///   slots there are;
/// - the rules of expressions: 406, 407, 408, 405, 401, 402, 404, 412, 413, 411 and 409, item by item;
/// - the rules of assignments: 501, then 502;
/// - 511, of how many bits there are.
///
/// Memory may be refused at any time.
#[tactic(auto, using(crate::proofs::OfSources::text_stop, crate::proofs::OfSources::grammar_stop, crate::proofs::OfSources::assignments_stop))]
pub fn read_model(alloc: Global, text: &[u8]) -> Result<Flat, TextStop>
    ensures model { IfOk result (λ flat. IsModel text.now flat.typed.scope.program) }
    ensures refused { IfErr result (IsSourceStop text.now) }
{
    let tokens = tokens(alloc, text)?;
    let program = parse(alloc, &tokens)?;
    let main = check_modules(alloc, &program)?;
    let scope = lay_out_instances(alloc, program, main)?;
    check_names(alloc, &scope)?;
    let resolution = resolve_items(alloc, &scope)?;
    let typed = check(alloc, scope, &resolution)?;
    let flat = flatten(alloc, typed)?;
    narrow(alloc, flat)
}
