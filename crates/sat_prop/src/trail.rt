//! The trail: the literals that are set, in order, with their reasons and decision levels (Eén and
//! Sörensson 2003).

ghost use Rattle.std.specs.Prelude.{◌≡◌, [], IfOk, length};
ghost use Rattle.clause_core.specs.Literals.{Within};
ghost use Rattle.sat_prop.specs.Trails.{PlacesMatch, ValuesMatch, StartsRise, StartsIn, DecisionsBegin};

use clause_core::Lit;
use std::alloc::{AllocError, Global};

/// A trail: the literals that are set, in the order in which they were set, and why.
///
/// Each literal is a decision or was forced by a clause. A decision begins a level; the literals before
/// the first decision belong to none.
#[derive(Drop)]
pub struct Trail {
    /// The value of each variable: 0 for unset, 1 for true, 2 for false.
    pub values: Vec<u8>,
    /// Where the literal of each variable that is set stands among the literals.
    pub positions: Vec<usize>,
    /// Why the literal of each variable that is set stands there: 0 for a decision, else one more than the
    /// number of the clause that forced it.
    pub reasons: Vec<usize>,
    /// The literals that are set true.
    pub literals: Vec<Lit>,
    /// Where each decision stands among the literals.
    pub level_starts: Vec<usize>,
    pub ghost values_ok: { ValuesMatch values.items literals.items },
    pub ghost placed: { PlacesMatch literals.items positions.items },
    pub ghost within: { Within (length values.items) literals.items },
    pub ghost places_len: { length positions.items ≡ length values.items },
    pub ghost reasons_len: { length reasons.items ≡ length values.items },
    pub ghost rising: { StartsRise level_starts.items },
    pub ghost in_trail: { StartsIn level_starts.items literals.items },
    pub ghost roots: { DecisionsBegin literals.items reasons.items level_starts.items },
}

impl Trail {
    /// Nothing set, over so many variables.
    pub(crate) fn new(alloc: Global, vars: usize) -> Result<Trail, AllocError>
        ensures vars { IfOk result (λ t. length t.values.items ≡ vars) }
        ensures literals { IfOk result (λ t. t.literals.items ≡ []) }
        ensures level_starts { IfOk result (λ t. t.level_starts.items ≡ []) }
    {
        let values = vec![in alloc; 0; vars]?;
        let positions = vec![in alloc; 0; vars]?;
        let reasons = vec![in alloc; 0; vars]?;
        Ok(Trail {
            values,
            positions,
            reasons,
            literals: Vec::new(alloc),
            level_starts: Vec::new(alloc),
        })
    }
}
