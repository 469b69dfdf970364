ghost use Rattle.cue_net.specs.Truth.{AreTrue};

/// What `push` answers is true of the site, as far as bytes come as they were sent: where the site
/// has read just what was sent, and its replies are what was heard, an export that is answered is
/// that of the site, and the site has accepted all inputs, in order.
///
/// It computes nothing: it states a law.
pub fn answers_are_true()
    ensures { AreTrue }
{}
