ghost use Rattle.std.specs.Prelude.{◌≤◌, IfOk};

use crate::ended::{LoopError, check_call};
use crate::sockets::{LISTENER, Sockets, is_of_client};
use cue_rounds::{Bounds, Gathers, Loop, PullSource};
use http_server::Settle;
use log::Log;
use mio::net::TcpListener;
use mio::{Events, Interest, Poll, Token};
use std::hash::RandomState;
use std::net::Net;
use std::random::RandomSource;
use std::time::{Clock, Duration, Instant};

/// So many events are told at once.
const MOST_EVENTS: usize = 1024;

/// So many waits for sockets may fail one after the other. A round follows each of them.
const MOST_FAILURES: u64 = 16;

/// Serves connections until a round does not stand, or for so many rounds.
///
/// # Errors
///
/// The call of the system that failed, or why a round failed to settle. Its clients are dropped
/// unanswered.
pub fn serve<H, S, L>(
    rt: &H,
    log: &L,
    mut listener: TcpListener,
    bounds: Bounds,
    sources: &[PullSource],
    service: S,
    rounds: u64,
) -> Result<(), LoopError>
where
    H: AllocGlobal + Net + Clock + RandomSource,
    S: Settle + Gathers + Drop,
    L: Log,
{
    let poll = check_call("epoll_create", Poll::new(rt))?;
    let registered = poll
        .registry()
        .register(&mut listener, Token(LISTENER), Interest::READABLE);
    check_call("epoll_ctl", registered)?;
    let mut events = Events::with_capacity(rt.alloc(), MOST_EVENTS)?;
    let start = check_call("clock_gettime", Instant::now(rt))?;
    let keys = check_call("getrandom", RandomState::new(rt))?;
    let sockets = Sockets { rt, poll, listener };
    let mut state = Loop::new(rt.alloc(), sockets, keys, bounds, sources, service, start)?;
    let mut failures = 0u64;
    for _ in 0..rounds {
        let most = state.wait();
        failures = wait_for_sockets(&mut state.runtime.poll, &mut events, most, failures)?;
        for event in &events {
            let Token(token) = event.token();
            if token == LISTENER {
                state.wake_listener();
            } else if is_of_client(token, sources.len()) {
                state.wake(token - 1);
            }
        }
        let now = check_call("clock_gettime", Instant::now(rt))?;
        let seconds = now.saturating_duration_since(start).as_secs();
        let settled = state.round(now, seconds);
        state.report(log);
        if let Err(error) = settled {
            return Err(LoopError::Unsettled(error));
        }
    }
    Ok(())
}

/// Waits for sockets, behind so many waits that failed one after the other. Answers how many have.
///
/// # Errors
///
/// That of the wait, once too many have failed.
fn wait_for_sockets(
    poll: &mut Poll,
    events: &mut Events,
    most: Duration,
    failures: u64,
) -> Result<u64, LoopError>
    ensures { IfOk result (λ failed. failed ≤ 16) }
{
    match poll.poll(events, Some(most)) {
        Ok(()) => Ok(0),
        Err(error) if failures >= MOST_FAILURES => Err(LoopError::System("epoll_wait", error)),
        Err(_) => Ok(failures + 1),
    }
}
