//! What a loop needs of the system: a listener, its connections, connections to other sites, and
//! random bytes.

ghost use Rattle.std.specs.Prelude.{◌≡◌, ◌≤◌, ◌++◌, ℕ, List, [], length, take, IfOk, OnErr};
ghost use Rattle.http_server.specs.Connection.{config_of, history};
ghost use Rattle.http_server.specs.History.{after_read, after_sent};

use http_server::Connection;
use std::net::SocketAddr;

/// Why a call of a stream moved nothing.
#[derive(Clone, Copy, Debug, PartialEq, Eq)]
pub enum StreamFault {
    /// There is nothing to read, or no room to write: the system wakes the loop when there is.
    WouldBlock,
    /// The call was interrupted, and may be repeated at once.
    Interrupted,
    /// The stream is of no more use.
    Broken,
}

/// The stream of a client's connection.
pub trait ClientStream {
    // All bytes that arrived from the client, and all that were written to it.
    ghost arrived: { Self → List ℕ };

    ghost written: { Self → List ℕ };

    /// Has a connection read once, at most so many bytes. Answers how many arrived: none at the end.
    fn fill(&mut self, connection: &mut Connection, most: usize) -> Result<usize, StreamFault>
        ensures ok { IfOk result (λ n. (more : List ℕ) × (length more ≡ n)
            × (history connection.new ≡ after_read (history connection.old) more)
            × (arrived self.new ≡ arrived self.old ++ more)) }
        ensures err { OnErr result ((history connection.new ≡ history connection.old)
            × (arrived self.new ≡ arrived self.old)) }
        ensures config { config_of connection.new ≡ config_of connection.old }
        ensures silent { written self.new ≡ written self.old };

    /// Reads bytes, and drops them. Answers how many arrived: none at the end.
    fn skip(&mut self) -> Result<usize, StreamFault>
        ensures silent { written self.new ≡ written self.old };

    /// Writes the first bytes that a connection has to send. Answers how many.
    fn drain(&mut self, connection: &mut Connection) -> Result<usize, StreamFault>
        ensures ok { IfOk result (λ n. (history connection.new ≡ after_sent (history connection.old) n)
            × (written self.new ≡ written self.old ++ take n (history connection.old).pending)) }
        ensures err { OnErr result ((history connection.new ≡ history connection.old)
            × (written self.new ≡ written self.old)) }
        ensures config { config_of connection.new ≡ config_of connection.old }
        ensures deaf { arrived self.new ≡ arrived self.old };
}

/// A connection to another site.
pub trait SourceStream {
    /// Reads what has arrived, to the front of a slice. Answers how many bytes: none at the end.
    fn read(&mut self, into: &mut [u8]) -> Result<usize, StreamFault>
        ensures { IfOk result (λ n. n ≤ length into.new) };

    /// Writes bytes from the front of a slice. Answers how many.
    fn write(&mut self, bytes: &[u8]) -> Result<usize, StreamFault>
        ensures { IfOk result (λ n. n ≤ length bytes.now) };
}

/// The result of asking a listener for a connection.
#[derive(Drop)]
pub enum Accepted<T> {
    Connection(T),
    /// None waits: the listener wakes the loop when one does.
    Empty,
    /// The system refused one that still waits, for example since no descriptor is free.
    Refused,
}

/// A listener, connections to other sites, and random bytes.
pub trait Runtime {
    type Client: ClientStream + Drop;

    type Source: SourceStream + Drop;

    /// Accepts a connection that waits.
    fn accept(&mut self) -> Accepted<Self::Client>
        // Nothing was written to a new one.
        ensures fresh { (client : Self.Client) → result ≡ Accepted.Connection client
            → Self.Client.written client ≡ [] };

    /// Has the system wake the loop for a connection, by the number of its place. Answers whether it
    /// will.
    fn watch(&mut self, client: &mut Self::Client, place: usize) -> bool
        ensures { Self.Client.written client.new ≡ Self.Client.written client.old };

    /// The address of a name and a port, as in `eu.example.com:8420`, where it has one.
    fn look_up(&mut self, host: &str) -> Option<SocketAddr>;

    /// Begins to connect to another site, by the number of that site.
    fn connect(&mut self, number: usize, at: SocketAddr) -> Result<Self::Source, StreamFault>;

    /// A random byte.
    fn draw(&mut self) -> u8;
}
