//! A folder in memory, which fails where it is asked to.

ghost use Rattle.std.specs.Prelude.{◌≡◌, ℕ, ◌+◌, ◌-◌, ◌^◌, ◌<◌, ◌≤◌, min, length, take, drop, Option, Some, None, Ok, Err, if◌then◌else◌, IfOk, IfSome, option_copied, option_map};
ghost use Rattle.xl_outside.specs.Folders.{Files, file_of, ReadsFile, Reads, FolderAfter, fate_by, unread_fate};
ghost use Rattle.xl_outside.specs.Memory.{FolderState, known, is_listed, part_of, opened_folder, known_folder, read_answer, after_read};

use crate::folder::{Folder, Unread};
use std::marker::Model;

/// Files in memory.
///
/// A read takes at most `piece` bytes. The reads are numbered from 1, and those whose number is in
/// `failing`, and no others, return Failed.
#[derive(Drop)]
pub struct MemFolder {
    files: Vec<(String, Vec<u8>)>,
    failing: Vec<u64>,
    piece: usize,
    calls: u64,
    faults: u64,
    absences: u64,
}

impl Model for MemFolder {
    ghost use Rattle.std.specs.Prelude.{ℕ, ◌<◌};
    ghost use Rattle.xl_outside.specs.Memory.{FolderState, known};

    ghost Value = { FolderState };

    ghost view = { λ s. record {
      held = known s.files.items;
      failing = s.failing.items;
      piece = s.piece;
      calls = s.calls;
      failed = s.faults;
      missed = s.absences;
    } };

    ghost invariant = { λ s. 0 < s.piece };
}

impl MemFolder {
    /// Takes the files with their names. Where a name occurs twice, its first file is meant.
    pub fn open(files: Vec<(String, Vec<u8>)>, failing: Vec<u64>, piece: usize) -> MemFolder
        requires { 0 < piece }
        ensures { result ≡ opened_folder (known files.items) failing.items piece }
    {
        MemFolder {
            files,
            failing,
            piece,
            calls: 0,
            faults: 0,
            absences: 0,
        }
    }
}

impl Folder for MemFolder {
    ghost folder = { known_folder };

    fn read_at(&mut self, name: &str, at: u64, buf: &mut [u8]) -> Result<usize, Unread>
        ensures answer { result ≡ read_answer self.old name.now at (length buf.old) }
        ensures after { self.new ≡ after_read self.old result }
        ensures count { IfOk result (λ n. n ≤ length buf.new) }
        ensures known { ReadsFile (file_of self.old.held name.now) at result buf.old buf.new }
        ensures leaves { FolderAfter known_folder self.old self.new (fate_by unread_fate result) }
    {
        self.calls = self.calls.saturating_add(1);
        let answer = if self.failing.contains(&self.calls) {
            Err(Unread::Failed)
        } else {
            read_part(&self.files, name, at, self.piece, buf)
        };
        match answer {
            Ok(_) => {}
            Err(Unread::Missing) => self.absences = self.absences.saturating_add(1),
            Err(Unread::Failed) => self.faults = self.faults.saturating_add(1),
        }
        answer
    }
}

/// The bytes of the first file of this name.
fn find<'a>(files: &'a [(String, Vec<u8>)], name: &str) -> Option<&'a [u8]>
    ensures { option_copied result ≡ file_of (known files.entry.now) name.now }
{
    for (held, bytes) in files {
        if held.as_str() == name {
            return Some(bytes.as_slice());
        }
    }
    None
}

/// Reads a part of the file of this name, where it is there.
fn read_part(
    files: &[(String, Vec<u8>)],
    name: &str,
    at: u64,
    piece: usize,
    buf: &mut [u8],
) -> Result<usize, Unread>
    requires { 0 < piece }
    ensures answer { result
        ≡ part_of (file_of (known files.now) name.now) at (length buf.old) piece }
    ensures known { ReadsFile (file_of (known files.now) name.now) at result buf.old buf.new }
{
    let Some(file) = find(files, name) else {
        return Err(Unread::Missing);
    };
    Ok(copy_part(file, at as usize, piece, buf))
}

/// Copies the bytes from `at` on to the front of `buf`: the least of `piece`, the room and what is
/// left.
fn copy_part(file: &[u8], at: usize, piece: usize, buf: &mut [u8]) -> usize
    requires { 0 < piece }
    ensures count { result ≡ min piece (min (length buf.old) (length file.now - at)) }
    ensures reads { Reads file.now at result buf.old buf.new }
{
    if at >= file.len() {
        return 0;
    }
    let rest = &file[at..];
    let count = piece.min(buf.len().min(rest.len()));
    buf[..count].copy_from_slice(&rest[..count]);
    count
}
