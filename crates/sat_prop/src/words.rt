//! Literals as words of 32 bits.

ghost use Rattle.std.specs.Prelude.{◌≡◌, ◌<◌, ◌^◌};
ghost use Rattle.sat_prop.specs.Watches.{cell};
ghost use Rattle.sat_prop.specs.Words.{literal_of};

use clause_core::Lit;

// The number of a literal: literals are kept as such where they are read most.
pub fn word_of(l: Lit) -> u32
    requires { cell l < 2 ^ 32 }
    ensures { result ≡ cell l }
{
    let twice = 2 * l.var as u32;
    if l.positive { twice + 1 } else { twice }
}

// The literal of a number.
pub fn literal(word: u32) -> Lit
    ensures { result ≡ literal_of word }
{
    Lit {
        var: (word / 2) as usize,
        positive: word % 2 == 1,
    }
}
