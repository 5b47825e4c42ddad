use oc_bytes::{
    Failed, MemSink, MemSource, Sink, Source, StdSink, StdSource, WriteFault, write_all,
};
use std::io;
use std::io::{ErrorKind, Read, Write};
use std::test::Fail;

#[test]
fn reads_from_memory(rt: HostRuntime) -> Result<(), Fail> {
    let bytes = b"abc".to_vec(rt.alloc())?;
    let mut source = MemSource::new(bytes, [1].to_vec(rt.alloc())?, 2);
    let mut into = [0u8; 4];
    assert_eq!(rt; source.read(&mut into), Ok(2));
    assert_eq!(rt; source.read(&mut into), Err(Failed));
    assert_eq!(rt; source.faults(), 1);
    assert_eq!(rt; source.read(&mut into), Ok(1));
    assert_eq!(rt; into, *b"cb\0\0");
    assert_eq!(rt; source.read(&mut into), Ok(0));
    Ok(())
}

#[test]
fn writes_to_memory(rt: HostRuntime) -> Result<(), Fail> {
    let mut sink = MemSink::new(rt.alloc(), [2].to_vec(rt.alloc())?, 2);
    assert_eq!(rt; write_all(&mut sink, b"abc"), Ok(()));
    assert_eq!(rt; write_all(&mut sink, b"de"), Err(WriteFault::Failed));
    assert_eq!(rt; sink.faults(), 1);
    assert_eq!(rt; write_all(&mut sink, b"f"), Ok(()));
    assert_eq!(rt; sink.written(), b"abcf".as_slice());
    Ok(())
}

/// Signals interrupt the first calls, and each call after them moves one byte.
#[derive(Drop)]
struct Interrupted {
    signals: u32,
    wrote: u32,
}

impl Interrupted {
    fn call(&mut self) -> io::Result<()> {
        if self.signals > 0 {
            self.signals -= 1;
            return Err(io::Error::from(ErrorKind::Interrupted));
        }
        Ok(())
    }
}

impl Read for Interrupted {
    fn read(&mut self, buf: &mut [u8]) -> io::Result<usize> {
        self.call()?;
        if buf.is_empty() {
            return Ok(0);
        }
        buf[0] = 7;
        Ok(1)
    }
}

impl Write for Interrupted {
    fn write(&mut self, buf: &[u8]) -> io::Result<usize> {
        self.call()?;
        if self.wrote > 0 {
            return Ok(0);
        }
        self.wrote += 1;
        Ok(buf.len().min(1))
    }

    fn flush(&mut self) -> io::Result<()> {
        Ok(())
    }
}

fn after_signals(signals: u32) -> Interrupted {
    Interrupted { signals, wrote: 0 }
}

#[test]
fn repeats_interrupted_calls(rt: HostRuntime) {
    let mut into = [0u8; 4];
    let mut source = StdSource::new(after_signals(16));
    assert_eq!(rt; source.read(&mut into), Ok(1));
    assert_eq!(rt; source.faults(), 16);
    let mut stuck = StdSource::new(after_signals(17));
    assert_eq!(rt; stuck.read(&mut into), Err(Failed));
    assert_eq!(rt; stuck.faults(), 17);
    let mut sink = StdSink::new(after_signals(16));
    assert_eq!(rt; sink.write(b"ab"), Ok(1));
    assert_eq!(rt; sink.write(b"b"), Err(WriteFault::Failed));
    assert_eq!(rt; sink.faults(), 17);
}
