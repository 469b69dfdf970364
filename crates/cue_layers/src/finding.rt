//! Where a key is in a list of layers.
ghost use Rattle.std.specs.Prelude.{MatchResult};
ghost use Rattle.cue_layers.specs.Layers.{key, IsInOrder};
ghost use Rattle.cue_layers.specs.Inner.Places.{IsPlace, IsGap};

use crate::layer::Layer;
use cue_policies::LayerKind;

/// The index of the layer with a key, or else the one at which it would be put.
pub fn find(entries: &[Layer], kind: LayerKind, name: &str) -> Result<usize, usize>
    requires { IsInOrder entries.now }
    ensures { MatchResult result (IsPlace entries.now (key kind name.now))
        (IsGap entries.now (key kind name.now)) }
{
    entries.binary_search_by(|layer| layer.compare_key(kind, name))
}
