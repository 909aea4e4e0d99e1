//! Streams of bytes that count their faults.
//!
//! A [`Source`] gives bytes and a [`Sink`] takes them. Each counts its failed calls, so that a
//! caller can tell a failure of the stream from any other. [`MemSource`] and [`MemSink`] stand in
//! memory, move as few bytes a call as is asked, and fail at named calls; [`QuietSource`] and
//! [`QuietSink`] stand in memory and never fail; [`StdSource`] and [`StdSink`] adapt std's readers
//! and writers. [`read_all`] and [`write_all`] move whole texts.
//!
//! A count of faults has 64 bits, and stays at its last value (`specs/Streams.antt`). What a stream
//! in memory holds is a record of `specs/Memory.antt`, and of `specs/Quiet.antt` where it keeps a
//! front of what is written.
#![tactic(auto)]

mod mem_sink;
mod mem_source;
mod quiet_sink;
mod quiet_source;
mod refused;
mod std_streams;
mod streams;
#[cfg(test)]
mod tests;
mod whole;

pub use mem_sink::MemSink;
pub use mem_source::MemSource;
pub use quiet_sink::QuietSink;
pub use quiet_source::QuietSource;
pub use refused::{ReadFailed, ReadRefused, WriteFailed};
pub use std_streams::{StdSink, StdSource};
pub use streams::{Sink, Source};
pub use whole::{read_all, write_all};
