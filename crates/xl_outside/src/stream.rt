//! Open files: read on from a place, and put at another one only where that is asked for.

ghost use Rattle.std.specs.Prelude.{◌≡◌, ◌≢◌, ℕ, ◌+◌, ◌≤◌, ◌↔◌, length, Option, Some, Result, Err, IfOk, IfSome, OnOk, IsTrue, option_map};
ghost use Rattle.std.specs.Option.{ForSome};
ghost use Rattle.xl_outside.specs.Folders.{Files, file_of};
ghost use Rattle.xl_outside.specs.Streams.{StreamState, ReadsHere, Opens, moved_on, put_at, sought};

use crate::folder::Unread;
use std::io;

/// A file that is open.
pub trait Stream {
    /// Its name, its bytes, the place of the next one, and how often it was put at another place,
    /// where they are known.
    ghost state: { Self → Option StreamState };

    /// Whether it was opened by this name.
    fn is_named(&self, name: &str) -> bool
        ensures { IfSome (state self.now) (λ s. IsTrue result ↔ (s.name ≡ name.now)) };

    /// Puts it at a place.
    fn seek_to(&mut self, at: u64) -> io::Result<()>
        ensures { OnOk result (state self.new ≡ option_map (put_at at) (state self.old)) };

    /// Reads on, to the front of `buf`, and returns how many bytes: 0 for a buffer that isn't empty
    /// exactly at the file's end.
    fn read_on(&mut self, buf: &mut [u8]) -> io::Result<usize>
        ensures count { IfOk result (λ n. n ≤ length buf.new) }
        ensures known { IfOk result (λ n. ReadsHere (state self.old) n buf.old buf.new) }
        ensures moves { IfOk result
            (λ n. state self.new ≡ option_map (moved_on n) (state self.old)) };
}

/// What opens files by name.
pub trait Opener<S: Stream> {
    /// The files, where they are known.
    ghost files: { Self → Option Files };

    /// Opens the file of this name at its front.
    fn open(&self, name: &str) -> Result<S, Unread>
        ensures known { IfSome (files self.now)
            (λ fs. Opens result S.state name.now (file_of fs name.now)) }
        ensures front { IfOk result (λ s. ForSome (S.state s) (λ t. t.place ≡ 0)) };
}

/// A file that is open, and the place where its next byte is read.
#[derive(Drop)]
pub struct Placed<S: Stream> {
    stream: S,
    at: u64,
    ghost placed: { ForSome (S.state stream) (λ s. s.place ≡ at) },
}

impl<S: Stream + Drop> Placed<S> {
    /// A file at its front.
    pub fn front(stream: S) -> Placed<S>
        requires { ForSome (S.state stream) (λ s. s.place ≡ 0) }
        ensures { result.stream ≡ stream }
    {
        Placed { stream, at: 0 }
    }

    /// Whether the file was opened by this name.
    pub fn is_named(&self, name: &str) -> bool
        ensures { IfSome (S.state self.now.stream) (λ s. IsTrue result ↔ (s.name ≡ name.now)) }
    {
        self.stream.is_named(name)
    }

    /// Reads from a place. The file is put there only where it is at another one, so that a pipe
    /// can be read from its front to its end.
    pub fn read_at(self, at: u64, buf: &mut [u8]) -> Result<(Placed<S>, usize), Unread>
        ensures count { IfOk result (λ r. r.1 ≤ length buf.new) }
        ensures known { IfOk result (λ r.
            ReadsHere (option_map (sought at) (S.state self.stream)) r.1 buf.old buf.new) }
        ensures moves { IfOk result (λ r. S.state r.0.stream
            ≡ option_map (moved_on r.1) (option_map (sought at) (S.state self.stream))) }
        ensures failed { result ≢ Err Unread.Missing }
    {
        let mut stream = self.sought(at)?;
        let Ok(count) = stream.read_on(buf) else {
            return Err(Unread::Failed);
        };
        let Some(next) = at.checked_add(count as u64) else {
            return Err(Unread::Failed);
        };
        Ok((Placed { stream, at: next }, count))
    }

    /// The file at a place.
    fn sought(self, at: u64) -> Result<S, Unread>
        ensures moves { IfOk result
            (λ t. S.state t ≡ option_map (sought at) (S.state self.stream)) }
        ensures there { IfOk result (λ t. ForSome (S.state t) (λ s. s.place ≡ at)) }
        ensures failed { result ≢ Err Unread.Missing }
    {
        let Placed {
            mut stream,
            at: place,
        } = self;
        if place == at {
            return Ok(stream);
        }
        match stream.seek_to(at) {
            Ok(()) => Ok(stream),
            Err(_) => Err(Unread::Failed),
        }
    }
}
