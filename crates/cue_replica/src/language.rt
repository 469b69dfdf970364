ghost use Rattle.std.specs.Prelude.{codes};
ghost use Rattle.cue_lattice.specs.World.{IsExactOnDocuments, IsSoundLanguage};
ghost use Rattle.cue_replica.specs.Language.{Table, language};
ghost use Rattle.cue_replica.specs.PrintedAgain.{GivesTheSiteAgain};
ghost use Rattle.cue_replica.specs.Reading.{AreReadInPieces};

/// What every language of the store must keep to holds of the one that this crate takes: a legal
/// text and the bytes of a state have no fault, so that they are never refused but for memory;
/// sites read what they write; and a valid table is told by its answers. And it is exact against
/// documents: a text or a state admits exactly the documents that meet what it refuses.
///
/// It computes nothing: it states laws.
pub fn sound_language()
    ensures sound { IsSoundLanguage Table language }
    ensures documents { IsExactOnDocuments Table language }
{}

/// The language is not empty: `a: 1` is one of its texts.
///
/// It computes nothing: it states a law.
pub fn legal_text()
    ensures { language.IsLegal (codes "a: 1") }
{}

/// The printed text of a site where something is known, handed to a site that has accepted nothing,
/// gives a site with the same table, or is refused for want of memory; or it is over a limit.
///
/// It computes nothing: it states a law.
#[tactic(auto, using(crate::proofs::PrintedAgain::gives_again))]
pub fn printed_text_gives_the_site_again()
    ensures { GivesTheSiteAgain }
{}

/// State bytes mean the same to a reader however they are cut. What a reader has taken in tells of
/// all bytes that it was handed; and where it stands at a fault, that is the one fault of these
/// bytes, whatever follows them, so that `take` would answer it too, or want memory.
///
/// It computes nothing: it states a law.
pub fn states_are_read_in_pieces()
    ensures { AreReadInPieces }
{}
