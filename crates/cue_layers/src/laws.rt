//! Laws of maps of layers, each on a call that carries it and does nothing.
ghost use Rattle.cue_layers.specs.Bytes.{AreOfTheirPuts, HaveOneMap};
ghost use Rattle.cue_layers.specs.Pieces.{AreReadInPieces};
ghost use Rattle.cue_layers.specs.Join.{AddsPuts, AreEqualOfOneSet, JoinsPuts, IsCommutative, IsAssociative, IsIdempotent};

/// Maps of one set of puts are equal, in whatever order and however often the puts came.
pub fn one_map_of_puts()
    ensures { AreEqualOfOneSet }
{}

/// The join of the maps of two sets of puts is the map of both sets.
pub fn joined_maps_are_of_both_sets()
    ensures { JoinsPuts }
{}

/// Joining is commutative, associative and idempotent.
pub fn maps_join_in_any_order()
    ensures commutative { IsCommutative }
    ensures associative { IsAssociative }
    ensures idempotent { IsIdempotent }
{}

/// What a put leaves is the map of one put more, and so is what goes into the commons.
pub fn puts_are_added()
    ensures { AddsPuts }
{}

/// Bytes are the layers bytes of one map at most, and a map that was read is the map of its layers as
/// puts.
pub fn layers_bytes_are_exact()
    ensures one { HaveOneMap }
    ensures puts { AreOfTheirPuts }
{}

/// What a reader of layers bytes has taken in tells of all bytes that it was handed, however they were
/// cut.
pub fn layers_are_read_in_pieces()
    ensures { AreReadInPieces }
{}
