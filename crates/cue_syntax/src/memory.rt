ghost use Rattle.std.specs.Prelude.{◌≡◌, ◌++◌, ◌∷◌, [], OnOk, IfOk, IfErr};
ghost use Rattle.cue_syntax.specs.Stops.{IsMemoryParserStop};

use crate::stop::ParserStop;
use cue_lattice::Memory;
use std::alloc::Global;

/// Puts a value at the end.
pub fn push<T: Drop>(values: &mut Vec<T>, value: T) -> Result<(), ParserStop>
    ensures pushed { OnOk result (values.new.items ≡ values.old.items ++ value ∷ []) }
    ensures memory { IfErr result IsMemoryParserStop }
{
    values.push(value).map_err(Memory::from)?;
    Ok(())
}

/// Puts a value into a box.
pub fn boxed<T: Drop>(alloc: Global, value: T) -> Result<Box<T>, ParserStop>
    ensures boxed { IfOk result (λ b. b.value ≡ value) }
    ensures memory { IfErr result IsMemoryParserStop }
{
    Ok(Box::new(alloc, value).map_err(Memory::from)?)
}

/// The values, with no room for more of them. Most structs have few declarations, which are large,
/// and a text can have many structs.
pub fn drop_spare_room<T: Drop>(mut values: Vec<T>) -> Vec<T>
    ensures { result.items ≡ values.items }
{
    values.shrink_to_fit();
    values
}
