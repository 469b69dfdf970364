ghost use Rattle.std.specs.Prelude.{◌≡◌, ℕ, IfOk, IsErr};

use cue_device::{Fault, Sink, Source};

/// One end of a connection: where its bytes are read, and where they are written.
#[derive(Drop)]
pub struct End<S, K> {
    pub source: S,
    pub sink: K,
}

/// The network of this computer: doors at the ports of 127.0.0.1, and connections to them.
///
/// Contracts see what each call came to, which nothing else tells: so what a caller promises of a
/// door or of a connection holds of the one that it asked for.
pub trait Network {
    /// A door at a port, through which connections come in.
    type Door: Drop;

    /// Where an end of a connection is read.
    type Input: Source + Drop;

    /// Where it is written.
    type Output: Sink + Drop;

    // This is a new door at the port with this number.
    ghost opens: { Self → ℕ → Self.Door → Type 0 };

    // The one door let in a new connection with this end, and is the other door now.
    ghost lets_in: { Self → Self.Door → Self.Door → Self.Input → Self.Output → Type 0 };

    // This is the near end of a new connection to the port with this number.
    ghost reaches: { Self → ℕ → Self.Input → Self.Output → Type 0 };

    // These are both ends of a new connection.
    ghost joins: { Self → Self.Input → Self.Output → Self.Input → Self.Output → Type 0 };

    // A call failed.
    ghost fails: { Self → Type 0 };

    /// Opens a door at this port.
    ///
    /// # Errors
    ///
    /// `Fault` where it can't be had.
    fn open(&self, port: u16) -> Result<Self::Door, Fault>
        ensures opened { IfOk result (opens self.now port) }
        ensures fault { IsErr result → fails self.now };

    /// Waits for the next connection through a door.
    ///
    /// # Errors
    ///
    /// `Fault` where none can be had.
    fn accept(&self, door: &mut Self::Door) -> Result<End<Self::Input, Self::Output>, Fault>
        ensures let_in { IfOk result (λ end.
            lets_in self.now door.old door.new end.source end.sink) }
        ensures fresh { IfOk result (λ end. (Self.Input.called end.source ≡ 0)
            × (Self.Output.called end.sink ≡ 0)) }
        ensures fault { IsErr result → fails self.now };

    /// Connects to this port.
    ///
    /// # Errors
    ///
    /// `Fault` where nobody is there.
    fn connect(&self, port: u16) -> Result<End<Self::Input, Self::Output>, Fault>
        ensures reached { IfOk result (λ end. reaches self.now port end.source end.sink) }
        ensures fresh { IfOk result (λ end. (Self.Input.called end.source ≡ 0)
            × (Self.Output.called end.sink ≡ 0)) }
        ensures fault { IsErr result → fails self.now };

    /// Both ends of a new connection within this process.
    ///
    /// # Errors
    ///
    /// `Fault` where it can't be had.
    fn join(
        &self,
    ) -> Result<
        (
            End<Self::Input, Self::Output>,
            End<Self::Input, Self::Output>,
        ),
        Fault,
    >
        ensures joined { IfOk result (λ ends. joins self.now ends.0.source ends.0.sink
            ends.1.source ends.1.sink) }
        ensures near { IfOk result (λ ends. (Self.Input.called ends.0.source ≡ 0)
            × (Self.Output.called ends.0.sink ≡ 0)) }
        ensures far { IfOk result (λ ends. (Self.Input.called ends.1.source ≡ 0)
            × (Self.Output.called ends.1.sink ≡ 0)) }
        ensures fault { IsErr result → fails self.now };
}
