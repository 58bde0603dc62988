//! How a run ends.

ghost use Rattle.std.specs.Prelude.{◌≡◌};
ghost use Rattle.xl_course.specs.Stops.{status_by};

use crate::stop::Stop;

/// The status of a run, which is the program's exit code.
#[derive(Clone, Copy, PartialEq)]
pub enum Status {
    Ok,
    Usage,
    BadConfig,
    BadScript,
    BadTrace,
    ReadFault,
    WriteFault,
    NoMemory,
    NoFile,
}

impl Status {
    /// The status of a run that ends so.
    pub fn of(end: Result<(), Stop>) -> Status
        ensures { result ≡ status_by end }
    {
        match end {
            Ok(()) => Status::Ok,
            Err(stop) => stop.status(),
        }
    }
}
