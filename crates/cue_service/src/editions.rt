ghost use Rattle.std.specs.Prelude.{◌≡◌, ◌↔◌, IsTrue};
ghost use Rattle.cue_service.specs.Editions.{HasSeen};

use http::HeaderValue;

/// The number of the edition, which is another one as soon as the tag of the table is.
#[derive(Drop)]
pub(crate) struct Editions {
    pub(crate) number: u64,
    /// The tag that was seen last.
    pub(crate) seen: Option<HeaderValue>,
}

impl Editions {
    pub(crate) fn new() -> Editions {
        Editions {
            number: 0,
            seen: None,
        }
    }

    /// The number that goes with this tag of the table: the last one exactly where the tag is that
    /// which was seen last.
    pub(crate) fn number_of(&mut self, tag: HeaderValue) -> u64
        ensures number { result ≡ self.new.number }
        ensures seen { HasSeen self.new tag.bytes }
        ensures same { self.new.number ≡ self.old.number ↔ HasSeen self.old tag.bytes }
    {
        if !self.has_seen(&tag) {
            self.number = self.number.wrapping_add(1);
            self.seen = Some(tag);
        }
        self.number
    }

    fn has_seen(&self, tag: &HeaderValue) -> bool
        ensures { IsTrue result ↔ HasSeen self.now tag.now.bytes }
    {
        match &self.seen {
            Some(seen) => seen.as_bytes() == tag.as_bytes(),
            None => false,
        }
    }
}
