//! A folder of files that are read in pieces.

ghost use Rattle.std.specs.Prelude.{◌≡◌, ℕ, ◌+◌, ◌-◌, ◌^◌, ◌<◌, ◌≤◌, length, take, drop, Option, IfOk, IfSome};
ghost use Rattle.xl_outside.specs.Folders.{FolderMeaning, file_of, ReadsFile, FolderAfter, fate_by, unread_fate};

use thiserror::Error;

/// Why a read gave nothing.
#[derive(Clone, Copy, Debug, Error)]
pub enum Unread {
    /// No file of this name can be opened.
    #[error("no such file")]
    Missing,
    /// The read failed.
    #[error("a read failed")]
    Failed,
}

/// Files by name, read in pieces.
pub trait Folder {
    /// Its files, what failed so far, and whether no read fails from here on.
    ghost folder: { FolderMeaning Self };

    /// Reads bytes of the file `name`, from the byte `at` on, to the front of `buf`, and returns
    /// how many: 0 for a buffer that isn't empty exactly where `at` is at or past the file's end.
    fn read_at(&mut self, name: &str, at: u64, buf: &mut [u8]) -> Result<usize, Unread>
        ensures count { IfOk result (λ n. n ≤ length buf.new) }
        ensures known { IfSome (folder.files self.old)
            (λ fs. ReadsFile (file_of fs name.now) at result buf.old buf.new) }
        ensures leaves { FolderAfter folder self.old self.new
            (fate_by unread_fate result) };
}
