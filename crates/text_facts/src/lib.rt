//! Facts of short texts: what the definitions of tokens, grammar, names and meaning say of them,
//! computed by the prover. Who must believe such a definition sees here what it comes to, and a
//! wrong answer is refused.
//!
//! The facts stand in proofs/, a file for each topic. No crate stands on them, so that they prolong
//! no other proof. The one function computes nothing: its contract states a few of them.
#![tactic(auto)]

ghost use Rattle.std.specs.Prelude.{◌≡◌, [], None, Some, Err, codes};
ghost use Rattle.cue_lattice.specs.Refusal.{refusal_at};
ghost use Rattle.cue_lattice.specs.declared.refusal.Kind.TheVariants as refusals;
ghost use Rattle.cue_lex.specs.Integers.{literal_number};
ghost use Rattle.cue_lex.specs.Tokens.{tokens};
ghost use Rattle.cue_syntax.specs.Spots.{spot_of};
ghost use Rattle.cue_syntax.specs.declared.spot.Position.TheVariants as spots;
ghost use Rattle.cue_scope.specs.Named.{named_of};

/// A bad number is refused at its first byte, `0x1F` is 31, a text begins where a declaration may
/// stand, and `uint64` is the name of no set of integers.
pub fn short_texts_are_as_told()
    ensures bad_number { tokens (codes "01") ≡ Err (refusal_at refusals.BadNumber 0) }
    ensures hexadecimal { literal_number (codes "0x1F") ≡ Some 31 }
    ensures first_spot { spot_of [] ≡ spots.Top }
    ensures no_name { named_of (codes "uint64") ≡ None }
{}
