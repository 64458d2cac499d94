//! A model that is checked.

ghost use Rattle.std.specs.Prelude.{◌≡◌, IfErr, IfOk};
ghost use Rattle.smv_front.specs.Sources.{IsModel};
ghost use Rattle.smv_cli.specs.Prepared.{IsCheckStop, IsPreparedWith};
ghost use Rattle.smv_cli.specs.Written.{IsSetUp, IsInRange, program_in};

use crate::preparing::{Preparation, prepared};
use bit_states::BuildStop;
use bit_system::{Built, build};
use command_words::Effort;
use smv_flat::Flat;
use smv_front::read_model;
use smv_tree::TextStop;
use std::alloc::Global;

/// A model that is checked, with its systems, the effort that a specification may cost, and what is known of its items.
#[derive(Drop)]
pub struct Checking {
    pub flat: Flat,
    pub built: Built,
    pub effort: Effort,
    pub preparation: Preparation,
}

/// The model that a text is, prepared, with its systems.
#[tactic(auto, using(crate::proofs::OfPreparing::source_stop, crate::proofs::OfPreparing::fault_stop))]
pub fn begin(alloc: Global, text: &[u8], effort: &Effort) -> Result<Checking, TextStop>
    requires range { IsInRange effort.now }
    ensures model { IfOk result (λ m. IsModel text.now (program_in m)) }
    ensures begun { IfOk result IsSetUp }
    ensures effort { IfOk result (λ m. m.effort ≡ effort.now) }
    ensures prepared { IfOk result (λ m. IsPreparedWith (program_in m) effort.now m.preparation) }
    ensures refused { IfErr result (IsCheckStop text.now) }
{
    let flat = read_model(alloc, text)?;
    let preparation = prepared(alloc, &flat, effort)?;
    let built = match build(alloc, &flat) {
        Ok(built) => built,
        Err(BuildStop::TooManyBits) => unreachable!(),
        Err(BuildStop::NoMemory) => return Err(TextStop::NoMemory),
    };
    Ok(Checking {
        flat,
        built,
        effort: *effort,
        preparation,
    })
}
