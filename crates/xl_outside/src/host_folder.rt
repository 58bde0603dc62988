//! The system's files as a folder: the trusted edge.

ghost use Rattle.std.specs.Prelude.{◌≡◌, None};

use crate::folder::Unread;
use crate::open_folder::OpenFolder;
use crate::stream::{Opener, Stream};
use std::fs::File;
use std::io::{ErrorKind, Read, Seek, SeekFrom};
use std::{fs, io};

/// The system's files, by path. What they hold isn't known to contracts.
pub type HostFolder = OpenFolder<HostFiles, HostFile>;

impl HostFolder {
    pub fn open(rt: &HostRuntime) -> HostFolder
        ensures faults { result.faults ≡ 0 }
        ensures absences { result.absences ≡ 0 }
    {
        OpenFolder::over(HostFiles { rt: *rt })
    }
}

/// What opens the system's files.
#[derive(Drop)]
pub struct HostFiles {
    rt: HostRuntime,
}

impl Opener<HostFile> for HostFiles {
    ghost files = { λ _. None };

    /// What can't be opened is missing, unless only memory was lacking.
    fn open(&self, name: &str) -> Result<HostFile, Unread> {
        let file = match fs::open(&self.rt, name) {
            Ok(file) => file,
            Err(error) if error.kind() == ErrorKind::OutOfMemory => return Err(Unread::Failed),
            Err(_) => return Err(Unread::Missing),
        };
        match String::from_str(self.rt.alloc(), name) {
            Ok(name) => Ok(HostFile { name, file }),
            Err(_) => Err(Unread::Failed),
        }
    }
}

/// A file of the system that is open, and the path by which it was opened.
#[derive(Drop)]
pub struct HostFile {
    name: String,
    file: File,
}

impl Stream for HostFile {
    ghost state = { λ _. None };

    fn is_named(&self, name: &str) -> bool {
        self.name.as_str() == name
    }

    fn seek_to(&mut self, at: u64) -> io::Result<()> {
        self.file.seek(SeekFrom::Start(at))?;
        Ok(())
    }

    fn read_on(&mut self, buf: &mut [u8]) -> io::Result<usize> {
        self.file.read(buf)
    }
}
