//! What the definitions of printed texts rest on, as laws on calls that do nothing.
ghost use Rattle.std.specs.Prelude.{◌≡◌, not, ◌&&◌};
ghost use Rattle.cue_lattice.specs.declared.scalar.Scalar.{Scalar};
ghost use Rattle.cue_scalars.specs.declared.scalar_set.ScalarSet.{ScalarSet};
ghost use Rattle.cue_scalars.specs.Scalars.{members, IsScalarSet};
ghost use Rattle.cue_print.specs.Difference.{scalars_without};

/// What is printed behind a default is what the value has and the default lacks: a set without
/// another one has just the members of the first that the second lacks, and is in the one form of
/// sets.
pub fn others_are_left()
    ensures members { (a b : ScalarSet) (scalar : Scalar) → members (scalars_without a b) scalar
        ≡ (members a scalar && not (members b scalar)) }
    ensures form { (a b : ScalarSet) → IsScalarSet a → IsScalarSet b → IsScalarSet (scalars_without a b) }
{}
