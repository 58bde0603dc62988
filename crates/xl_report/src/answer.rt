//! The lines of accesses, commands and images.

ghost use Rattle.std.specs.Prelude.{◌≡◌, ◌+◌, ◌≤◌, ◌<◌, ◌++◌, ◌∷◌, ℕ, [], length, drop, codes, decimal, is_ok};
ghost use Rattle.xl_model.specs.Addresses.{code_of};
ghost use Rattle.xl_model.specs.Tally.{IsSmall, physical};
ghost use Rattle.xl_model.specs.Lines.{kind_letter, with_reply, answer_line, verb_of, with_outcome, command_line, image_line};
ghost use Rattle.xl_outside.specs.Sinks.{SinkAfter};
ghost use Rattle.xl_report.specs.Replies.{reply_size};

use crate::front::{
    byte_before, bytes_before, chunk_before, ends_before, hex_before, number_before,
};
use crate::line::Line;
use crate::size::digits;
use std::marker::Model;
use std::simd::prelude::*;
use xl_model::{Event, Kind, Outcome, Reply, Row, code};
use xl_outside::{Failed, Sink, Text, put_all};

/// An access of the record of this number, in the space where it was served, and its reply.
#[derive(Clone, Copy)]
pub struct Answered {
    pub number: u64,
    pub kind: Kind,
    pub space: u16,
    pub va: u64,
    pub reply: Reply,
}

/// Appends the line of an access: the row's name, the record's number, the access, and its reply. A
/// frame that is replied is below 2^52, so that its physical addresses are below 2^64. Inlined, so
/// that the parts of the access stay in registers.
///
/// # Errors
///
/// `Failed` only where the sink's faults rose; then the beginning of the line was appended.
#[inline(always)]
pub fn write_answer<K: Sink>(out: &mut K, row: &Row, answered: Answered) -> Result<(), Failed>
    requires { IsSmall answered.reply }
    ensures { SinkAfter K.sink
        (answer_line row.now.name.bytes answered.number answered.kind answered.space answered.va
        answered.reply) out.old out.new (is_ok result) }
{
    out.put_text(&AnswerText {
        name: row.name.as_bytes(),
        answered,
    })
}

/// The line of an access to the row of this name.
#[derive(Drop)]
struct AnswerText<'a> {
    name: &'a [u8],
    answered: Answered,
}

impl<'a> Model for AnswerText<'a> {
    ghost use Rattle.std.specs.Prelude.{ℕ, List, length, ◌≤◌};
    ghost use Rattle.xl_model.specs.Tally.{IsSmall};
    ghost use Rattle.xl_model.specs.Lines.{answer_line};

    ghost Value = { List ℕ };

    ghost view = { λ t. answer_line t.name.now t.answered.number t.answered.kind
        t.answered.space t.answered.va t.answered.reply };

    ghost invariant = { λ t. (length t.name.now ≤ 16) × IsSmall t.answered.reply };
}

impl<'a> Text for AnswerText<'a> {
    ghost bytes = { λ t. t };

    #[inline(always)]
    fn len(&self) -> usize {
        let answered = self.answered;
        self.name.len()
            + digits(answered.number)
            + digits(answered.space as u64)
            + reply_len(answered.reply)
            + 22
    }

    #[inline(always)]
    fn write(&self, room: &mut [u8]) {
        answer_text(room, self.name, self.answered);
    }
}

/// Fills a buffer of its length with the line of an access, from its end to its front.
#[inline(always)]
fn answer_text(line: &mut [u8], name: &[u8], answered: Answered)
    requires small { IsSmall answered.reply }
    requires name { length name.now ≤ 16 }
    requires room { length line.old ≡ length name.now + length (decimal answered.number)
        + length (decimal answered.space) + reply_size answered.reply + 22 }
    ensures { line.new ≡ answer_line name.now answered.number answered.kind
        answered.space answered.va answered.reply }
{
    let end = line.len();
    let at = byte_before(line, end, b'\n');
    let at = reply_before(line, at, answered.kind, answered.va, answered.reply);
    let at = hex_before(line, at, answered.va);
    let at = byte_before(line, at, b' ');
    let at = number_before(line, at, answered.space as u64);
    let at = letter_before(line, at, answered.kind);
    let at = number_before(line, at, answered.number);
    let at = byte_before(line, at, b' ');
    name_before(line, at, name);
}

/// Puts a row's name in front.
#[inline(always)]
fn name_before(line: &mut [u8], end: usize, name: &[u8]) -> usize
    requires name { length name.now ≤ 16 }
    requires room { length name.now ≤ end }
    requires within { end ≤ length line.old }
    ensures start { result + length name.now ≡ end }
    ensures text { drop result line.new ≡ name.now ++ drop end line.old }
{
    let len = name.len();
    if len >= 8 {
        ends_before::<8>(line, end, name)
    } else if len >= 4 {
        ends_before::<4>(line, end, name)
    } else {
        bytes_before(line, end, name)
    }
}

/// Puts the letter of a kind of access, between blanks, in front.
#[inline(always)]
fn letter_before(line: &mut [u8], end: usize, kind: Kind) -> usize
    requires room { 3 ≤ end }
    requires within { end ≤ length line.old }
    ensures start { result + 3 ≡ end }
    ensures text { drop result line.new ≡ kind_letter kind ++ drop end line.old }
{
    let at = byte_before(line, end, b' ');
    let at = byte_before(line, at, letter(kind));
    byte_before(line, at, b' ')
}

/// The letter of a kind of access.
fn letter(kind: Kind) -> u8
    ensures { kind_letter kind ≡ 32 ∷ result ∷ 32 ∷ [] }
{
    match kind {
        Kind::Fetch => b'I',
        Kind::Load => b'L',
        Kind::Store => b'S',
    }
}

/// How many bytes a reply has.
fn reply_len(reply: Reply) -> usize
    ensures size { result ≡ reply_size reply }
    ensures most { result ≤ 20 }
{
    match reply {
        Reply::Frame(_) => 20,
        Reply::Unmapped => 12,
        Reply::Denied => 10,
        Reply::NotCanonical => 16,
    }
}

/// Puts a reply in front of what a buffer has from `end` on, and returns where it starts: the
/// physical address, or the code of the fault.
#[inline(always)]
fn reply_before(line: &mut [u8], end: usize, kind: Kind, va: u64, reply: Reply) -> usize
    requires small { IsSmall reply }
    requires room { reply_size reply ≤ end }
    requires within { end ≤ length line.old }
    ensures start { result + reply_size reply ≡ end }
    ensures text { drop result line.new ≡ with_reply [] kind va reply ++ drop end line.old }
{
    match reply {
        Reply::Frame(frame) => {
            let at = hex_before(line, end, frame * 4096 + va % 4096);
            chunk_before(line, at, u8x4::from_array(*b" ok "))
        }
        Reply::Unmapped => fault_before(line, end, kind, b" unmapped "),
        Reply::Denied => fault_before(line, end, kind, b" denied "),
        Reply::NotCanonical => fault_before(line, end, kind, b" notcanonical "),
    }
}

/// Puts a fault in front: its name, and the code of the kind of access. It is rare, so it isn't
/// inlined.
#[inline(never)]
fn fault_before(line: &mut [u8], end: usize, kind: Kind, fault: &[u8]) -> usize
    requires room { length fault.now + 2 ≤ end }
    requires within { end ≤ length line.old }
    ensures start { result + length fault.now + 2 ≡ end }
    ensures text { drop result line.new
        ≡ (fault.now ++ decimal (code_of kind)) ++ drop end line.old }
{
    let at = number_before(line, end, code(kind) as u64);
    bytes_before(line, at, fault)
}

/// Appends the line of a command: the row's name, the command's verb, and its outcome. An event
/// that is an access has no verb, and a reply no word.
///
/// # Errors
///
/// `Failed` only where the sink's faults rose; then the beginning of the line was appended.
#[tactic(auto, unfolding(xl_model::specs::Lines::command_line))]
pub fn write_command<K: Sink>(
    out: &mut K,
    row: &Row,
    event: Event,
    outcome: Outcome,
) -> Result<(), Failed>
    ensures { SinkAfter K.sink
        (command_line row.now.name.bytes event outcome) out.old out.new (is_ok result) }
{
    let mut line = Line::<128>::new();
    line.add(row.name.as_bytes());
    line.add(verb(event));
    add_outcome(&mut line, outcome);
    line.add(b"\n");
    put_all(out, line.bytes())
}

/// The verb of a command, after what marks a command's line.
fn verb(event: Event) -> &'static [u8]
    ensures text { result.now ≡ verb_of event }
    ensures size { length result.now ≤ 12 }
{
    match event {
        Event::Access { .. } => b"",
        Event::Map { .. } => b" cmd map",
        Event::Unmap { .. } => b" cmd unmap",
        Event::Protect { .. } => b" cmd protect",
        Event::Move { .. } => b" cmd move",
        Event::Space { .. } => b" cmd space",
        Event::Fence { .. } => b" cmd fence",
    }
}

/// Puts the outcome of a command at the line's end.
fn add_outcome(line: &mut Line<128>, outcome: Outcome)
    requires { length line.old + 40 ≤ 128 }
    ensures text { line.new ≡ with_outcome line.old outcome }
    ensures grows { length line.new ≤ length line.old + 40 }
{
    match outcome {
        Outcome::Replied(_) => {}
        Outcome::Done => line.add(b" ok"),
        Outcome::Refused(refusal) => {
            line.add(b" refused ");
            line.number(refusal.place() as u64 + 1);
        }
    }
}

/// Appends the line of a word of a radix table: the row's name, the node's number, the word's index
/// in the node, and the word.
///
/// # Errors
///
/// `Failed` only where the sink's faults rose; then the beginning of the line was appended.
#[tactic(auto, unfolding(xl_model::specs::Lines::image_line))]
pub fn write_image<K: Sink>(
    out: &mut K,
    row: &Row,
    node: u32,
    index: u32,
    word: u64,
) -> Result<(), Failed>
    ensures { SinkAfter K.sink
        (image_line row.now.name.bytes (record { node = node; index = index; word = word }))
        out.old out.new (is_ok result) }
{
    let mut line = Line::<128>::new();
    line.add(b"image ");
    line.add(row.name.as_bytes());
    line.add(b" ");
    line.number(node as u64);
    line.add(b" ");
    line.number(index as u64);
    line.add(b" ");
    line.hex(word);
    line.add(b"\n");
    put_all(out, line.bytes())
}
