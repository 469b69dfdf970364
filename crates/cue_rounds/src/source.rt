ghost use Rattle.std.specs.Prelude.{◌≡◌, false, None, Some, IfOk};
ghost use Rattle.cue_rounds.specs.declared.asked.Feed.TheVariants.{Commons, Layers};
ghost use Rattle.cue_rounds.specs.Standing.{Changes};

use crate::asked::{Asked, Feed, begin, step};
use crate::event_loop::Bounds;
use crate::rounds::Gathers;
use crate::runtime::{Runtime, SourceStream};
use std::alloc::{AllocError, Global};
use std::net::SocketAddr;
use std::time::Instant;

/// Another site, which is asked for what it accepted.
#[derive(Clone, Drop)]
pub struct PullSource {
    /// Its name and its port, as in `eu.example.com:8420`: what is looked up, and the `Host` of each
    /// question.
    pub host: String,
    /// Its address, where the name was looked up.
    pub at: Option<SocketAddr>,
    /// What is before `/pieces`, `/state` and `/sync` in a path: nothing, or as `/eu`.
    pub prefix: String,
    /// The token that each question bears, if any.
    pub token: Option<String>,
}

impl PullSource {
    /// The site at this address: it has no prefix, and is asked without a token.
    pub fn of_address(alloc: Global, address: SocketAddr) -> Result<PullSource, AllocError>
        ensures { IfOk result (λ source. (source.at ≡ Some address) × (source.token ≡ None)) }
    {
        Ok(PullSource {
            host: format!(in alloc; "{address}")?,
            at: Some(address),
            prefix: String::new(alloc),
            token: None,
        })
    }
}

/// Another site, and what it is asked for: two feeds, each with a connection and pauses of its own.
#[derive(Drop)]
pub(crate) struct SourceFeeds<L> {
    source: PullSource,
    pub(crate) commons: Asked<L>,
    pub(crate) layers: Asked<L>,
    // Both are asked for.
    ghost commons_are: { commons.feed ≡ Commons },
    ghost layers_are: { layers.feed ≡ Layers },
}

impl<L: SourceStream + Drop> SourceFeeds<L> {
    /// Both feeds of the source with this number, asked from this moment on.
    pub(crate) fn new(
        alloc: Global,
        number: usize,
        source: PullSource,
        now: Instant,
        bounds: &Bounds,
    ) -> SourceFeeds<L> {
        SourceFeeds {
            source,
            commons: Asked::new(alloc, number, Feed::Commons, now, bounds.every),
            layers: Asked::new(alloc, number, Feed::Layers, now, bounds.every),
        }
    }

    /// Looks the name up where the commons are asked for at this moment, and there is no address or
    /// nobody was reached at it. An address that was had is kept where none is found.
    fn find_address<R: Runtime<Source = L>>(&mut self, runtime: &mut R, now: Instant)
        ensures commons { self.new.commons ≡ self.old.commons }
        ensures layers { self.new.layers ≡ self.old.layers }
    {
        if !self.commons.is_next(now)
            || !(self.source.at.is_none() || self.commons.is_unreachable())
        {
            return;
        }
        if let Some(at) = runtime.look_up(&self.source.host) {
            self.source.at = Some(at);
        }
    }
}

/// Goes on with the commons of a source, and asks for them where it is time.
pub(crate) fn ask_commons<R: Runtime, S: Gathers>(
    runtime: &mut R,
    alloc: Global,
    source: &mut SourceFeeds<R::Source>,
    now: Instant,
    bounds: &Bounds,
    service: &mut S,
)
    ensures layers { source.new.layers ≡ source.old.layers }
    ensures changes { Changes S.pulls_state S.pulls_pieces S.pulls_layers S.rests service.old service.new }
{
    step(runtime, &mut source.commons, now, bounds, service);
    source.find_address(runtime, now);
    begin(
        runtime,
        alloc,
        &source.source,
        &mut source.commons,
        now,
        bounds,
        service,
    );
}

/// Goes on with the layers of a source, and asks for them where it is time and the service keeps
/// layers.
pub(crate) fn ask_layers<R: Runtime, S: Gathers>(
    runtime: &mut R,
    alloc: Global,
    source: &mut SourceFeeds<R::Source>,
    has_layers: bool,
    now: Instant,
    bounds: &Bounds,
    service: &mut S,
)
    ensures commons { source.new.commons ≡ source.old.commons }
    ensures layerless { has_layers ≡ false → (source.new.layers ≡ source.old.layers) × (service.new ≡ service.old) }
    ensures changes { Changes S.pulls_state S.pulls_pieces S.pulls_layers S.rests service.old service.new }
{
    if !has_layers {
        return;
    }
    step(runtime, &mut source.layers, now, bounds, service);
    begin(
        runtime,
        alloc,
        &source.source,
        &mut source.layers,
        now,
        bounds,
        service,
    );
}
