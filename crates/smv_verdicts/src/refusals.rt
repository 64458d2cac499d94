//! Makes refusals of a rule, a place and a name.

ghost use Rattle.std.specs.Prelude.{◌≡◌, MatchBool, None, Some};
ghost use Rattle.smv_tree.specs.declared.refusal.TextStop.TheVariants.{Refused};
ghost use Rattle.smv_verdicts.specs.Verdicts.{Judges, plain, detailed};

use plain_text::Text;
use smv_tree::{Place, Refusal, Rule, TextStop};
use std::alloc::Global;

/// The refusal by a rule, at a place.
pub fn refused(rule: Rule, place: Place) -> TextStop
    ensures { result ≡ Refused (plain rule place) }
{
    TextStop::Refused(Refusal {
        rule,
        place,
        detail: None,
    })
}

/// The refusal by a rule, at a place, for a name. `NoMemory` comes where memory was refused.
pub fn refuse_name(alloc: Global, rule: Rule, place: Place, name: &Text) -> Result<(), TextStop>
    ensures { Judges result (Some (detailed rule place name.now)) }
{
    let detail = Some(name.copy(alloc)?);
    Err(TextStop::Refused(Refusal {
        rule,
        place,
        detail,
    }))
}

/// The place of a refusal that speaks of the whole source: its first byte.
pub const START: Place = Place { line: 1, column: 1 };

/// The refusal by a rule, at a place, for a name, where what it refuses is so.
pub fn refuse_by(
    alloc: Global,
    is_so: bool,
    rule: Rule,
    place: Place,
    name: &Text,
) -> Result<(), TextStop>
    ensures { MatchBool is_so (Judges result (Some (detailed rule place name.now))) (Judges result None) }
{
    if is_so {
        refuse_name(alloc, rule, place, name)
    } else {
        Ok(())
    }
}
