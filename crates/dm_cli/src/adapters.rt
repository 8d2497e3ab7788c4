// A reader and a writer of the standard library as a source and a sink, which tell the bytes that those tell. Of
// standard input and output that is nothing.
ghost use Rattle.std.specs.Prelude.{◌≡◌, ◌<◌, None, length, IfErr};
ghost use Rattle.dm_base.specs.Outside.{PutsSome, PutCounts};

use dm_base::{Failed, Fault, Sink, Source};
use std::io::{Read, Write};

/// A reader, with a count of its faults.
#[derive(Drop)]
pub struct StdSource<R: Drop> {
    inner: R,
    faults: u64,
}

impl<R: Read + Drop> StdSource<R> {
    /// A source of what the reader gives, with no fault so far.
    pub fn new(inner: R) -> StdSource<R>
        ensures inner { result.inner ≡ inner }
        ensures faults { result.faults ≡ 0 }
    {
        StdSource { inner, faults: 0 }
    }
}

impl<R: Read + Drop> Source for StdSource<R> {
    ghost left = { λ s. R.remaining s.inner };

    ghost faults = { λ s. s.faults };

    fn take(&mut self, buf: &mut [u8]) -> Result<usize, Failed> {
        match self.inner.read(buf) {
            Ok(count) => Ok(count),
            Err(_) => {
                self.faults = self.faults.saturating_add(1);
                Err(Failed)
            }
        }
    }
}

/// A writer, with a count of its faults. A write of no byte is one.
#[derive(Drop)]
pub struct StdSink<W: Drop> {
    inner: W,
    faults: u64,
}

impl<W: Write + Drop> StdSink<W> {
    /// A sink to the writer, with no fault so far.
    pub fn new(inner: W) -> StdSink<W>
        ensures inner { result.inner ≡ inner }
        ensures faults { result.faults ≡ 0 }
    {
        StdSink { inner, faults: 0 }
    }
}

impl<W: Write + Drop> Sink for StdSink<W> {
    ghost got = { λ s. W.contents s.inner };

    ghost faults = { λ s. s.faults };

    /// A fault is `Failed`, never want of memory.
    fn put(&mut self, piece: &[u8]) -> Result<usize, Fault>
        requires { 0 < length piece.now }
        ensures bytes { PutsSome (W.contents self.old.inner) (W.contents self.new.inner) result piece.now }
        ensures count { PutCounts self.old.faults self.new.faults result }
        ensures failed { IfErr result (λ fault. fault ≡ Fault.Failed) }
    {
        match self.inner.write(piece) {
            Ok(count) if count > 0 => Ok(count),
            _ => {
                self.faults = self.faults.saturating_add(1);
                Err(Fault::Failed)
            }
        }
    }
}

#[cfg(test)]
mod tests {
    use super::*;
    use dm_base::{TakeError, put_all, take_all};
    use std::alloc::Global;
    use std::io;
    use std::io::{Error, ErrorKind};
    use std::test::Fail;

    /// Gives half of what is asked for. The call with the number `failing`, counted from 1, fails.
    #[derive(Drop)]
    struct HalfReader {
        left: &'static [u8],
        calls: u64,
        failing: u64,
        kind: ErrorKind,
    }

    impl Read for HalfReader {
        fn read(&mut self, buf: &mut [u8]) -> io::Result<usize> {
            self.calls = self.calls.saturating_add(1);
            if self.calls == self.failing {
                return Err(Error::from(self.kind));
            }
            let count = (buf.len() - buf.len() / 2).min(self.left.len());
            let (front, behind) = self.left.split_at(count);
            buf[..count].copy_from_slice(front);
            self.left = behind;
            Ok(count)
        }
    }

    /// Takes half of what it is given. The call with the number `failing`, counted from 1, fails.
    #[derive(Drop)]
    struct HalfWriter {
        got: Vec<u8>,
        calls: u64,
        failing: u64,
        kind: ErrorKind,
    }

    impl Write for HalfWriter {
        fn write(&mut self, buf: &[u8]) -> io::Result<usize> {
            self.calls = self.calls.saturating_add(1);
            if self.calls == self.failing {
                return Err(Error::from(self.kind));
            }
            let count = buf.len() - buf.len() / 2;
            self.got.extend_from_slice(&buf[..count])?;
            Ok(count)
        }

        fn flush(&mut self) -> io::Result<()> {
            Ok(())
        }
    }

    fn source_of(left: &'static [u8], failing: u64, kind: ErrorKind) -> StdSource<HalfReader> {
        StdSource::new(HalfReader {
            left,
            calls: 0,
            failing,
            kind,
        })
    }

    fn source(failing: u64) -> StdSource<HalfReader> {
        source_of(b"abcdef", failing, ErrorKind::ConnectionReset)
    }

    fn sink_of(alloc: Global, failing: u64, kind: ErrorKind) -> StdSink<HalfWriter> {
        StdSink::new(HalfWriter {
            got: Vec::new(alloc),
            calls: 0,
            failing,
            kind,
        })
    }

    fn sink(alloc: Global, failing: u64) -> StdSink<HalfWriter> {
        sink_of(alloc, failing, ErrorKind::BrokenPipe)
    }

    #[test]
    fn a_fault_of_a_reader_is_no_end(rt: HostRuntime) -> Result<(), Fail> {
        let mut src = source(2);
        let mut buf = [0u8; 8];
        assert_eq!(rt; src.take(&mut buf), Ok(4));
        assert_eq!(rt; &buf[..4], b"abcd".as_slice());
        assert_eq!(rt; src.take(&mut buf), Err(Failed));
        assert_eq!(rt; src.take(&mut buf), Ok(2));
        assert_eq!(rt; &buf[..2], b"ef".as_slice());
        assert_eq!(rt; src.take(&mut buf), Ok(0));
        assert_eq!(rt; src.inner.calls, 4);
        let failed = take_all(rt.alloc(), &mut source(2), 9).err();
        assert_eq!(rt; failed, Some(TakeError::Read));
        let whole = take_all(rt.alloc(), &mut source(0), 9)?;
        assert_eq!(rt; whole.as_slice(), b"abcdef".as_slice());
        Ok(())
    }

    #[test]
    fn a_short_write_is_not_the_whole(rt: HostRuntime) {
        let mut out = sink(rt.alloc(), 2);
        assert_eq!(rt; out.put(b"abcd"), Ok(2));
        assert_eq!(rt; out.put(b"cd"), Err(Fault::Failed));
        assert_eq!(rt; out.put(b"cd"), Ok(1));
        assert_eq!(rt; out.inner.calls, 3);
        assert_eq!(rt; out.inner.got.as_slice(), b"abc".as_slice());
        let mut out = sink(rt.alloc(), 0);
        assert_eq!(rt; put_all(&mut out, b"abcdef"), Ok(()));
        assert_eq!(rt; out.inner.got.as_slice(), b"abcdef".as_slice());
        let mut out = sink(rt.alloc(), 2);
        assert_eq!(rt; put_all(&mut out, b"abcdef"), Err(Fault::Failed));
        assert_eq!(rt; out.inner.got.as_slice(), b"abc".as_slice());
    }

    const KINDS: [ErrorKind; 4] = [
        ErrorKind::Interrupted,
        ErrorKind::TimedOut,
        ErrorKind::UnexpectedEof,
        ErrorKind::Other,
    ];

    #[test]
    fn no_fault_is_tried_again(rt: HostRuntime) {
        for kind in &KINDS {
            let mut src = source_of(b"abcdef", 1, *kind);
            let mut buf = [0u8; 8];
            assert_eq!(rt; src.take(&mut buf), Err(Failed));
            assert_eq!(rt; src.inner.calls, 1);
            let mut out = sink_of(rt.alloc(), 1, *kind);
            assert_eq!(rt; out.put(b"abcd"), Err(Fault::Failed));
            assert_eq!(rt; out.inner.calls, 1);
        }
    }

    const LONG: &[u8] = b"0123456789abcdef0123456789abcdef0123456789abcdef0123456789abcdef";

    // One call of the reader or the writer stands behind each.
    #[test]
    fn a_call_is_not_made_whole(rt: HostRuntime) {
        let mut src = source_of(LONG, 0, ErrorKind::Other);
        let mut buf = [0u8; 64];
        assert_eq!(rt; src.take(&mut buf), Ok(32));
        assert_eq!(rt; src.inner.left, &LONG[32..]);
        assert_eq!(rt; src.inner.calls, 1);
        let mut out = sink(rt.alloc(), 0);
        assert_eq!(rt; out.put(LONG), Ok(32));
        assert_eq!(rt; out.inner.got.as_slice(), &LONG[..32]);
        assert_eq!(rt; out.inner.calls, 1);
    }
}
