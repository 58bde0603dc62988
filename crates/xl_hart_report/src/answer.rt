//! The line of an access of a hart.

ghost use Rattle.std.specs.Prelude.{◌≡◌, ◌+◌, ◌≤◌, length, is_ok};
ghost use Rattle.xl_model.specs.Tally.{IsSmall};
ghost use Rattle.xl_model.specs.Lines.{kind_letter, with_reply};
ghost use Rattle.xl_outside.specs.Sinks.{SinkAfter};
ghost use Rattle.xl_hart_report.specs.Lines.{hart_line};

use xl_model::{Kind, Reply, code};
use xl_outside::{Failed, Sink, put_all};
use xl_report::{Answered, Line};

/// Appends the line of an access: the hart, the record's number, the access in the hart's space,
/// and its reply. A frame that is replied is below 2^52, so that its physical addresses are below
/// 2^64. Inlined, so that the parts of the access stay in registers.
///
/// # Errors
///
/// `Failed` only where the sink's faults rose; then the beginning of the line was appended.
#[inline(always)]
#[tactic(auto, unfolding(crate::specs::Lines::hart_line, xl_model::specs::Lines::answer_line))]
pub fn write_hart<K: Sink>(out: &mut K, hart: u16, answered: Answered) -> Result<(), Failed>
    requires { IsSmall answered.reply }
    ensures { SinkAfter K.sink
        (hart_line hart answered.number answered.kind answered.space answered.va answered.reply)
        out.old out.new (is_ok result) }
{
    let mut line = Line::<128>::new();
    line.add(b"hart ");
    line.number(hart as u64);
    line.add(b" ");
    line.number(answered.number);
    line.add(letter(answered.kind));
    line.number(answered.space as u64);
    line.add(b" ");
    line.hex(answered.va);
    add_reply(&mut line, answered.kind, answered.va, answered.reply);
    line.add(b"\n");
    put_all(out, line.bytes())
}

/// The letter of a kind of access, between blanks.
fn letter(kind: Kind) -> &'static [u8]
    ensures text { result.now ≡ kind_letter kind }
    ensures size { length result.now ≡ 3 }
{
    match kind {
        Kind::Fetch => b" I ",
        Kind::Load => b" L ",
        Kind::Store => b" S ",
    }
}

/// Puts a reply at the line's end: the physical address, or the code of the fault.
fn add_reply(line: &mut Line<128>, kind: Kind, va: u64, reply: Reply)
    requires small { IsSmall reply }
    requires room { length line.old + 40 ≤ 128 }
    ensures text { line.new ≡ with_reply line.old kind va reply }
    ensures grows { length line.new ≤ length line.old + 40 }
{
    let fault: &[u8] = match reply {
        Reply::Frame(frame) => {
            line.add(b" ok ");
            line.hex(frame * 4096 + va % 4096);
            return;
        }
        Reply::Unmapped => b" unmapped ",
        Reply::Denied => b" denied ",
        Reply::NotCanonical => b" notcanonical ",
    };
    line.add(fault);
    line.number(code(kind) as u64);
}
