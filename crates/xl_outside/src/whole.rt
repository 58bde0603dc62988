//! A whole file, up to a limit.

ghost use Rattle.std.specs.Prelude.{◌≡◌, ℕ, ◌+◌, ◌-◌, ◌^◌, ◌<◌, ◌≤◌, length, take, drop, Option, IfOk, OnOk, IfSome, ◌++◌};
ghost use Rattle.std.specs.Vec.{vec_len};
ghost use Rattle.xl_outside.specs.Folders.{file_of, FolderAfter, fate_by, read_stop_fate};
ghost use Rattle.xl_outside.specs.declared.whole.ReadStop.TheVariants as reason;
ghost use Rattle.xl_outside.specs.Whole.{ReadsWhole, stop_of};

use crate::folder::{Folder, Unread};
use std::alloc::{AllocError, Global};
use thiserror::Error;

/// Why a file wasn't read.
#[derive(Clone, Copy, Debug, Error)]
pub enum ReadStop {
    /// No file of this name can be opened.
    #[error("no such file")]
    Missing,
    /// A read failed.
    #[error("a read failed")]
    Failed,
    /// No memory was there for its bytes.
    #[error("no memory")]
    NoMemory,
}

impl From<AllocError> for ReadStop {
    ghost from_gives = { λ _ stop. stop ≡ reason.NoMemory };

    fn from(_error: AllocError) -> ReadStop {
        ReadStop::NoMemory
    }
}

impl From<Unread> for ReadStop {
    ghost from_gives = { λ unread stop. stop ≡ stop_of unread };

    fn from(unread: Unread) -> ReadStop {
        match unread {
            Unread::Missing => ReadStop::Missing,
            Unread::Failed => ReadStop::Failed,
        }
    }
}

/// Reads a file to its end, or its first `limit + 1` bytes where it has more than `limit`.
pub fn read_whole<F: Folder>(
    alloc: Global,
    folder: &mut F,
    name: &str,
    limit: usize,
) -> Result<Vec<u8>, ReadStop>
    requires { limit < 2 ^ 63 }
    ensures size { IfOk result (λ bytes. vec_len bytes ≤ limit + 1) }
    ensures known { IfSome (F.folder.files folder.old)
        (λ fs. ReadsWhole (file_of fs name.now) limit result) }
    ensures leaves { FolderAfter F.folder folder.old folder.new
        (fate_by read_stop_fate result) }
{
    let mut bytes = Vec::new(alloc);
    let mut buf = [0; 8192];
    while bytes.len() <= limit {
        let count = folder.read_at(name, bytes.len() as u64, &mut buf)?;
        if count == 0 {
            break;
        }
        let wanted = count.min(limit + 1 - bytes.len());
        append(&mut bytes, &buf, wanted)?;
    }
    Ok(bytes)
}

/// Appends the first `count` bytes of `part`.
fn append(bytes: &mut Vec<u8>, part: &[u8], count: usize) -> Result<(), AllocError>
    requires { count ≤ length part.now }
    ensures items { OnOk result (bytes.new.items ≡ bytes.old.items ++ take count part.now) }
    ensures len { OnOk result (vec_len bytes.new ≡ vec_len bytes.old + count) }
{
    bytes.extend_from_slice(&part[..count])
}
