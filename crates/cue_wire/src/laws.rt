ghost use Rattle.cue_wire.specs.Readings.{AreReadings};
ghost use Rattle.cue_wire.specs.Worlds.{AreEvents};

/// A stream is read in one way, however it is cut: its whole frames and the rest behind them are
/// told by the stream, and a stream and a further piece are read and served as both at once.
///
/// It computes nothing: it states a law.
pub fn streams_are_read_once()
    ensures { AreReadings }
{}

/// What sessions are in a world of sites: the frames that a session serves are events there, whose
/// outcomes are those that their replies tell, and with these the session's site is the site of
/// that world, the unification of the pieces that it has accepted, and every other site is as it
/// was. A text is a `Submit`, state bytes are a `Deliver` where they are a message and a `Foreign`
/// elsewhere, a state that is asked for is a `Send`. Frames that are answered with `BadRequest` or
/// `ReplyTooLong` are no events.
///
/// It computes nothing: it states a law.
pub fn sessions_are_events()
    ensures { AreEvents }
{}
