// A promise that no contract makes for the streams of std: a call that a signal interrupts is
// repeated.
use rosie_io::{ReadAnswer, Source, StdSink, StdSource, write_all};
use std::io;
use std::io::{Read, Write};

/// A stream whose first calls are interrupted. The field holds the number of calls that are still
/// to be interrupted. Every later read finds the end of the stream, and every later write accepts
/// all of its bytes.
#[derive(Drop)]
struct Interrupted(u8);

impl Read for Interrupted {
    fn read(&mut self, _buf: &mut [u8]) -> io::Result<usize> {
        if self.0 == 0 {
            return Ok(0);
        }
        self.0 -= 1;
        Err(io::Error::from(io::ErrorKind::Interrupted))
    }
}

impl Write for Interrupted {
    fn write(&mut self, buf: &[u8]) -> io::Result<usize> {
        if self.0 == 0 {
            return Ok(buf.len());
        }
        self.0 -= 1;
        Err(io::Error::from(io::ErrorKind::Interrupted))
    }

    fn flush(&mut self) -> io::Result<()> {
        Ok(())
    }
}

#[test]
fn interrupted_calls_are_made_again(rt: HostRuntime) {
    let mut source = StdSource::new(Interrupted(3));
    assert!(rt; source.read(&mut [0; 4]) == ReadAnswer::End);
    let mut sink = StdSink::new(Interrupted(3));
    assert!(rt; write_all(&mut sink, b"abc") == Ok(()));
}
