//! A clause's signature: one word that soon shows that a clause is no part of another (Eén and
//! Biere 2005).

ghost use Rattle.frame_core.specs.Signatures.{IsSignature};

use clause_core::Lit;

// The word whose bits stand for the literals of the clause, each for the variables with one remainder by 64.
pub(crate) fn signature_of(clause: &[Lit]) -> u64
    ensures { IsSignature clause.now result }
{
    let mut signature: u64 = 0;
    'literals: for l in clause {
        signature |= 1u64 << (l.var % 64);
    }
    signature
}
