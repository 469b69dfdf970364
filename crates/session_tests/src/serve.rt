//! Tests of connections that are served in turns, over devices in memory that move one byte a call,
//! fail at a call, or end early, and of the client's end over replies in memory. They stand in a
//! crate above, so that the crates below are not proved a second time with them.
mod devices;
mod ports;
mod pushes;
mod serves;
mod sockets;
mod wires;
