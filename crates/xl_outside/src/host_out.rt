//! Standard output and standard error as sinks: the trusted edge.

ghost use Rattle.std.specs.Prelude.{◌≡◌, [], None};

use crate::buffered::Buffered;
use crate::open_sink::{OpenSink, Writer};
use std::io;
use std::io::Write;
use std::rt::{Stderr, Stdout};

/// Standard output, which is written in large pieces. The output isn't visible to contracts.
pub type HostOut = Buffered<OpenSink<Stdout>>;

/// Standard error. The output isn't visible to contracts.
pub type HostErr = OpenSink<Stderr>;

impl HostOut {
    pub fn open(rt: &HostRuntime) -> HostOut
        ensures faults { result.to.faults ≡ 0 }
        ensures nothing { result.held ≡ [] }
    {
        Buffered::over(OpenSink::over(rt.stdout()))
    }
}

impl HostErr {
    pub fn open(rt: &HostRuntime) -> HostErr
        ensures { result.faults ≡ 0 }
    {
        OpenSink::over(rt.stderr())
    }
}

impl Writer for Stdout {
    ghost text = { λ _. None };

    fn write_some(&mut self, bytes: &[u8]) -> io::Result<usize> {
        self.write(bytes)
    }
}

impl Writer for Stderr {
    ghost text = { λ _. None };

    fn write_some(&mut self, bytes: &[u8]) -> io::Result<usize> {
        self.write(bytes)
    }
}
