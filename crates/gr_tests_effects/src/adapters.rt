//! Readers and writers of std as a source and a sink, and the allocator's error as that of a run.

use gr_out::{RunFault, Sink, Source};
use gr_sock::{StdSink, StdSource};
use std::alloc::AllocError;
use std::test::Fail;

#[test]
fn a_reader_and_a_writer_are_adapted(rt: HostRuntime) -> Result<(), Fail> {
    let mut source = StdSource::new(b"abc".as_slice());
    let mut piece = [0u8; 2];
    for (answer, bytes) in [(2, *b"ab"), (1, *b"cb"), (0, *b"cb")] {
        let read = source.read(&mut piece);
        assert!(rt; read == Ok(answer) && piece == bytes);
    }
    let mut sink = StdSink::new(Vec::new(rt.alloc()));
    assert!(rt; sink.write(b"abc").unwrap_or(9) == 3);
    assert!(rt; sink.write(b"").unwrap_or(9) == 0);
    assert!(rt; RunFault::from(AllocError) == RunFault::Memory);
    Ok(())
}
