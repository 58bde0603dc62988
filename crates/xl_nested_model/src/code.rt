//! The codes of faults.

ghost use Rattle.std.specs.Prelude.{◌≡◌};
ghost use Rattle.xl_nested_model.specs.Stages.{guest_code_of, nest_code_of};

use crate::nest::NestReply;
use xl_model::{Kind, code};

/// The code of the guest-page fault of an access of this kind.
pub fn guest_code(kind: Kind) -> u8
    ensures { result ≡ guest_code_of kind }
{
    match kind {
        Kind::Fetch => 20,
        Kind::Load => 21,
        Kind::Store => 23,
    }
}

/// The code of a reply's fault, of a page fault or of a guest-page fault (RISC-V Privileged
/// manual). None exactly where the reply is a frame.
pub fn nest_code(reply: NestReply, kind: Kind) -> Option<u8>
    ensures { result ≡ nest_code_of reply kind }
{
    match reply {
        NestReply::Frame(_) => None,
        NestReply::PageFault => Some(code(kind)),
        NestReply::GuestFault => Some(guest_code(kind)),
    }
}
