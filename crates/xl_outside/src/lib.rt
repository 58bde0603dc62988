//! What lies outside: a folder whose files are read in pieces, and a sink that takes bytes.
//!
//! Each has two implementations: one in memory that fails where it is asked to, whose contract says
//! all that it does, and one over the system, which is the trusted edge.
#![tactic(auto)]

mod buffered;
mod folder;
mod held;
mod host_folder;
mod host_out;
mod mem_folder;
mod mem_sink;
mod open_folder;
mod open_sink;
mod sink;
mod stream;
mod text;
mod whole;

pub use buffered::Buffered;
pub use folder::{Folder, Unread};
pub use host_folder::{HostFile, HostFiles, HostFolder};
pub use host_out::{HostErr, HostOut};
pub use mem_folder::MemFolder;
pub use mem_sink::MemSink;
pub use open_folder::OpenFolder;
pub use open_sink::{OpenSink, Writer};
pub use sink::{Failed, Sink, put_all, send_all};
pub use stream::{Opener, Placed, Stream};
pub use text::Text;
pub use whole::{ReadStop, read_whole};
