ghost use Rattle.std.specs.Prelude.{◌≡◌, ◌++◌, ◌∷◌, [], OnOk, IfOk, IfErr, false, length};
ghost use Rattle.std.proofs.Common.{replicate};
ghost use Rattle.std.specs.Vec.{vec_capacity};
ghost use Rattle.cue_lattice.specs.Refusal.{memory};

use crate::measure::Measure;
use cue_lattice::{Memory, Refusal};
use std::alloc::Global;

/// Puts a value at the end.
pub fn push<T: Drop>(values: &mut Vec<T>, value: T) -> Result<(), Refusal>
    ensures pushed { OnOk result (values.new.items ≡ values.old.items ++ value ∷ []) }
    ensures memory { IfErr result (λ refusal. refusal ≡ memory) }
{
    values.push(value).map_err(Memory::from)?;
    Ok(())
}

/// So many zeros.
pub fn zeros(alloc: Global, count: usize) -> Result<Vec<usize>, Refusal>
    ensures zeros { IfOk result (λ v. v.items ≡ replicate count 0) }
    ensures memory { IfErr result (λ refusal. refusal ≡ memory) }
{
    Ok(vec![in alloc; 0; count].map_err(Memory::from)?)
}

/// So many times `false`.
pub fn flags(alloc: Global, count: usize) -> Result<Vec<bool>, Refusal>
    ensures flags { IfOk result (λ v. v.items ≡ replicate count false) }
    ensures memory { IfErr result (λ refusal. refusal ≡ memory) }
{
    Ok(vec![in alloc; false; count].map_err(Memory::from)?)
}

/// Room for so many numbers.
pub fn new_numbers(alloc: Global, count: usize) -> Result<Vec<usize>, Refusal>
    ensures room { IfOk result (λ v. vec_capacity v ≡ count) }
    ensures memory { IfErr result (λ refusal. refusal ≡ memory) }
{
    Ok(Vec::with_capacity(alloc, count).map_err(Memory::from)?)
}

/// So many times the measure of nothing.
pub fn new_measures(alloc: Global, count: usize) -> Result<Vec<Measure>, Refusal>
    ensures length { IfOk result (λ v. length v.items ≡ count) }
    ensures memory { IfErr result (λ refusal. refusal ≡ memory) }
{
    Ok(vec![in alloc; Measure::none(); count].map_err(Memory::from)?)
}
