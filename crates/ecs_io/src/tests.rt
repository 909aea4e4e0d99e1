//! What no clause says: that memory suffices, that a flush comes, and one run of each stream.

use super::{
    MemSink, MemSource, QuietSink, QuietSource, ReadFailed, ReadRefused, Sink, Source, StdSink,
    StdSource, WriteFailed, read_all, write_all,
};
use entity_id::Counts;
use std::alloc::AllocError;
use std::io;
use std::io::{Cursor, Write};

// A writer that keeps nothing and counts its flushes.
#[derive(Debug, Drop)]
struct FlushCount {
    flushes: u32,
}

impl Write for FlushCount {
    fn write(&mut self, bytes: &[u8]) -> io::Result<usize> {
        Ok(bytes.len())
    }

    fn flush(&mut self) -> io::Result<()> {
        self.flushes = self.flushes.saturating_add(1);
        Ok(())
    }
}

#[test]
fn a_source_fails_at_its_named_reads(rt: HostRuntime) -> Result<(), AllocError> {
    let fails = Counts::from_vec(vec![in rt.alloc(); 1u64]?);
    let mut source = MemSource::new(vec![in rt.alloc(); 7u8, 8, 9]?, 2, fails);
    let mut buf = [0u8; 4];
    assert_eq!(rt; source.read(&mut buf), Ok(2));
    assert_eq!(rt; source.read(&mut buf), Err(ReadFailed));
    assert_eq!(rt; source.left(), 1);
    assert_eq!(rt; source.read(&mut buf), Ok(1));
    assert_eq!(rt; source.read(&mut buf), Ok(0));
    assert_eq!(rt; buf, [9, 8, 0, 0]);
    assert_eq!(rt; source.faults(), 1);
    Ok(())
}

#[test]
fn a_sink_fails_at_its_named_writes_and_where_it_is_full(
    rt: HostRuntime,
) -> Result<(), AllocError> {
    let fails = Counts::from_vec(vec![in rt.alloc(); 1u64]?);
    let mut sink = MemSink::new(rt.alloc(), 3, 2, fails).expect(&rt, "memory");
    assert_eq!(rt; sink.write(b"abcd"), Ok(2));
    assert_eq!(rt; sink.write(b"cd"), Err(WriteFailed));
    assert_eq!(rt; sink.write(b"cd"), Ok(1));
    assert_eq!(rt; sink.write(b"d"), Err(WriteFailed));
    assert_eq!(rt; sink.flush(), Ok(()));
    assert_eq!(rt; sink.bytes(), b"abc".as_slice());
    assert_eq!(rt; sink.faults(), 2);
    Ok(())
}

#[test]
fn a_sink_that_is_told_to_fails_every_flush_and_keeps_its_bytes(
    rt: HostRuntime,
) -> Result<(), AllocError> {
    let none = Counts::from_vec(Vec::new(rt.alloc()));
    let mut sink = MemSink::new(rt.alloc(), 9, 9, none)
        .expect(&rt, "memory")
        .fail_flush();
    assert_eq!(rt; write_all(&mut sink, b"abc"), Err(WriteFailed));
    assert_eq!(rt; sink.bytes(), b"abc".as_slice());
    assert_eq!(rt; sink.faults(), 1);
    assert_eq!(rt; sink.flush(), Err(WriteFailed));
    assert_eq!(rt; sink.bytes(), b"abc".as_slice());
    assert_eq!(rt; sink.faults(), 2);
    Ok(())
}

#[test]
fn whole_texts_pass_a_byte_at_a_time(rt: HostRuntime) -> Result<(), AllocError> {
    let text = vec![in rt.alloc(); 104u8, 105, 10]?;
    let mut source = MemSource::new(text, 1, Counts::from_vec(Vec::new(rt.alloc())));
    let read = read_all(rt.alloc(), &mut source, 3).expect(&rt, "three bytes");
    let none = Counts::from_vec(Vec::new(rt.alloc()));
    let mut sink = MemSink::new(rt.alloc(), 9, 1, none).expect(&rt, "memory");
    assert_eq!(rt; write_all(&mut sink, &read), Ok(()));
    assert_eq!(rt; sink.bytes(), b"hi\n".as_slice());
    Ok(())
}

#[test]
fn a_long_text_loses_one_byte_past_the_limit(rt: HostRuntime) -> Result<(), AllocError> {
    let none = Counts::from_vec(Vec::new(rt.alloc()));
    let mut source = MemSource::new(vec![in rt.alloc(); 1u8; 9]?, 5, none);
    let read = read_all(rt.alloc(), &mut source, 5);
    assert_eq!(rt; read, Err(ReadRefused::TooLong));
    assert_eq!(rt; source.left(), 3);
    Ok(())
}

#[test]
fn a_quiet_sink_keeps_what_fits_and_counts_all(rt: HostRuntime) {
    let mut sink = QuietSink::new(rt.alloc(), 3).expect(&rt, "memory");
    assert_eq!(rt; sink.write(b"ab"), Ok(2));
    assert_eq!(rt; sink.bytes(), b"ab".as_slice());
    assert_eq!(rt; sink.write(b"cde"), Ok(3));
    assert_eq!(rt; sink.flush(), Ok(()));
    assert_eq!(rt; sink.bytes(), b"abc".as_slice());
    assert_eq!(rt; sink.written(), 5);
    assert_eq!(rt; sink.faults(), 0);
}

#[test]
fn a_quiet_source_gives_all_its_bytes(rt: HostRuntime) -> Result<(), AllocError> {
    let mut source = QuietSource::new(vec![in rt.alloc(); 7u8, 8, 9]?);
    let mut buf = [0u8; 2];
    assert_eq!(rt; source.read(&mut buf), Ok(2));
    assert_eq!(rt; buf, [7, 8]);
    let rest = read_all(rt.alloc(), &mut source, 9).expect(&rt, "one byte");
    assert_eq!(rt; rest.as_slice(), [9].as_slice());
    assert_eq!(rt; source.read(&mut buf), Ok(0));
    assert_eq!(rt; source.faults(), 0);
    Ok(())
}

#[test]
fn write_all_flushes_the_writer(rt: HostRuntime) {
    let mut output = FlushCount { flushes: 0 };
    assert_eq!(rt; write_all(&mut StdSink::new(&mut output), b"text"), Ok(()));
    assert_eq!(rt; output.flushes, 1);
}

#[test]
fn std_readers_and_writers_serve(rt: HostRuntime) -> Result<(), AllocError> {
    let mut source = StdSource::new(b"text".as_slice());
    let read = read_all(rt.alloc(), &mut source, 9).expect(&rt, "four bytes");
    assert_eq!(rt; read.as_slice(), b"text".as_slice());
    assert_eq!(rt; source.faults(), 0);
    let mut held = Vec::new(rt.alloc());
    let mut sink = StdSink::new(&mut held);
    assert_eq!(rt; write_all(&mut sink, &read), Ok(()));
    assert_eq!(rt; sink.faults(), 0);
    assert_eq!(rt; held.as_slice(), b"text".as_slice());
    Ok(())
}

#[test]
fn a_full_writer_is_a_fault(rt: HostRuntime) {
    let mut room = [0u8; 2];
    let mut sink = StdSink::new(Cursor::new(room.as_mut_slice()));
    assert_eq!(rt; write_all(&mut sink, b"abc"), Err(WriteFailed));
    assert_eq!(rt; sink.faults(), 1);
}
