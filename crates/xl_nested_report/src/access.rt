//! The line of an access.

ghost use Rattle.std.specs.Prelude.{◌≡◌, ◌+◌, ◌≤◌, ◌<◌, length, is_ok};
ghost use Rattle.xl_model.specs.Lines.{kind_letter};
ghost use Rattle.xl_nested_model.specs.Tally.{IsSmallNest};
ghost use Rattle.xl_outside.specs.Sinks.{SinkAfter};
ghost use Rattle.xl_nested_report.specs.Lines.{nest_line, with_nest_reply};

use xl_model::{Kind, code};
use xl_nested_model::{NestReply, guest_code};
use xl_outside::{Failed, Sink, put_all};
use xl_report::Line;

/// Appends the line of an access: the record's number, the kind and the address, and the reply. A
/// frame that is replied is below 2^52, so that its physical addresses are below 2^64.
///
/// # Errors
///
/// `Failed` only where the sink's faults rose; then the beginning of the line was appended.
#[tactic(auto, unfolding(crate::specs::Lines::nest_line))]
pub fn write_nest<K: Sink>(
    out: &mut K,
    number: u64,
    kind: Kind,
    va: u64,
    reply: NestReply,
) -> Result<(), Failed>
    requires { IsSmallNest reply }
    ensures { SinkAfter K.sink (nest_line number kind va reply)
        out.old out.new (is_ok result) }
{
    let mut line = Line::<128>::new();
    line.add(b"nested ");
    line.number(number);
    line.add(letter(kind));
    line.hex(va);
    add_reply(&mut line, kind, va, reply);
    line.add(b"\n");
    put_all(out, line.bytes())
}

/// The letter of a kind of access, between blanks.
fn letter(kind: Kind) -> &'static [u8]
    ensures text { result.now ≡ kind_letter kind }
    ensures size { length result.now ≡ 3 }
{
    match kind {
        Kind::Fetch => b" I ",
        Kind::Load => b" L ",
        Kind::Store => b" S ",
    }
}

/// Puts a reply at the line's end: the physical address, or the code of the fault.
fn add_reply(line: &mut Line<128>, kind: Kind, va: u64, reply: NestReply)
    requires small { IsSmallNest reply }
    requires room { length line.old + 40 ≤ 128 }
    ensures text { line.new ≡ with_nest_reply line.old kind va reply }
    ensures grows { length line.new ≤ length line.old + 40 }
{
    match reply {
        NestReply::Frame(frame) => {
            line.add(b" ok ");
            line.hex(frame * 4096 + va % 4096);
        }
        NestReply::PageFault => {
            line.add(b" pagefault ");
            line.number(code(kind) as u64);
        }
        NestReply::GuestFault => {
            line.add(b" guestfault ");
            line.number(guest_code(kind) as u64);
        }
    }
}
