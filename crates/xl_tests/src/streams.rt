//! Faults of the forms of files and streams.

ghost use Rattle.std.specs.Prelude.{◌∷◌, [], Some, codes};

use std::io;
use std::io::ErrorKind;
use std::test::Fail;
use xl_outside::{
    Buffered, Failed, MemSink, OpenFolder, Opener, ReadStop, Sink, Stream, Unread, put_all,
    read_whole,
};

#[test]
fn a_buffer_keeps_what_a_failing_put_did_not_take(rt: HostRuntime) -> Result<(), Fail> {
    let alloc = rt.alloc();
    let sink = MemSink::open(alloc, 100000, vec![in alloc; 2]?, 10000).expect(&rt, "memory");
    let mut out = Buffered::over(sink);
    assert!(rt; put_all(&mut out, b"abcd").is_ok());
    assert!(rt; out.flush().is_ok());
    assert!(rt; put_all(&mut out, &[b'e'; 65536]).is_ok());
    assert!(rt; matches!(out.put(b"f"), Err(Failed)));
    assert_eq!(rt; out.sink().bytes(), b"abcd".as_slice());
    assert!(rt; put_all(&mut out, b"f").is_ok());
    assert!(rt; out.flush().is_ok());
    assert_eq!(rt; out.sink().bytes().len(), 65541);
    Ok(())
}

/// A pipe with five bytes, whose reads give two bytes at most, and whose second read may fail.
#[derive(Drop)]
struct Pipe {
    at: usize,
    fails: bool,
}

const PIPED: [u8; 5] = [b'a', b'b', b'c', b'd', b'e'];

impl Stream for Pipe {
    ghost state = { λ p. Some (record {
      name = codes "trace";
      bytes = codes "abcde";
      place =
          p.at;
      seeks = 0;
    }) };

    fn is_named(&self, name: &str) -> bool {
        name == "trace"
    }

    fn seek_to(&mut self, _at: u64) -> io::Result<()> {
        Err(io::Error::from(ErrorKind::NotSeekable))
    }

    fn read_on(&mut self, buf: &mut [u8]) -> io::Result<usize> {
        if self.fails && self.at > 0 {
            return Err(io::Error::from(ErrorKind::Other));
        }
        let at = self.at.min(PIPED.len());
        let rest = &PIPED[at..];
        let count = 2.min(buf.len().min(rest.len()));
        buf[..count].copy_from_slice(&rest[..count]);
        self.at += count;
        Ok(count)
    }
}

#[derive(Drop)]
struct Pipes {
    fails: bool,
}

impl Opener<Pipe> for Pipes {
    ghost files = { λ _. Some ((codes "trace", codes "abcde") ∷ []) };

    fn open(&self, name: &str) -> Result<Pipe, Unread> {
        if name != "trace" {
            return Err(Unread::Missing);
        }
        Ok(Pipe {
            at: 0,
            fails: self.fails,
        })
    }
}

#[test]
fn a_pipe_is_read_to_its_end_and_a_read_that_fails_is_no_end(rt: HostRuntime) -> Result<(), Fail> {
    let mut whole = OpenFolder::over(Pipes { fails: false });
    let trace = read_whole(rt.alloc(), &mut whole, "trace", 9)?;
    assert_eq!(rt; trace.as_slice(), b"abcde".as_slice());
    let mut broken = OpenFolder::over(Pipes { fails: true });
    let trace = read_whole(rt.alloc(), &mut broken, "trace", 9);
    assert!(rt; matches!(trace, Err(ReadStop::Failed)));
    Ok(())
}
