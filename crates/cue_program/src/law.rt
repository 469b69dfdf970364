ghost use Rattle.cue_program.specs.Effects.{ArePut};

use crate::files::FileSystem;

/// What the calls come to that a merge makes: wherever each call does what it says, those that put
/// bytes under a name put them there, with the mode of the file that lay there, and leave all other
/// files as they were; and those that were made where it could not be put harm no file.
///
/// It computes nothing: it states a law.
pub fn calls_put_the_bytes<S: FileSystem>()
    ensures { ArePut S.makes }
{}
