//! The lines of counts: one for each hart, and one for all together.

ghost use Rattle.std.specs.Prelude.{◌≡◌, ◌+◌, ◌≤◌, length, is_ok};
ghost use Rattle.xl_model.specs.Lines.{with_numbers, with_rest};
ghost use Rattle.xl_outside.specs.Sinks.{SinkAfter};
ghost use Rattle.xl_hart_report.specs.Lines.{with_hart_verdicts, with_hart_walks, with_hart_takes, hart_counts_line, with_all_commands, with_all_queues, all_counts_line};

use xl_hart_model::{AllCounts, HartCounts};
use xl_outside::{Failed, Sink, put_all};
use xl_report::Line;

/// Appends the line of a hart's counts: the hart, and each count after its name.
///
/// # Errors
///
/// `Failed` only where the sink's faults rose; then the beginning of the line was appended.
#[tactic(auto, unfolding(crate::specs::Lines::hart_counts_line))]
pub fn write_hart_counts<K: Sink>(out: &mut K, hart: u16, counts: &HartCounts) -> Result<(), Failed>
    ensures { SinkAfter K.sink (hart_counts_line hart counts.now) out.old out.new
        (is_ok result) }
{
    let mut line = Line::<512>::new();
    line.add(b"hart ");
    line.number(hart as u64);
    verdicts(&mut line, counts);
    walks(&mut line, counts);
    takes(&mut line, counts);
    line.add(b"\n");
    put_all(out, line.bytes())
}

#[tactic(auto, unfolding(crate::specs::Lines::with_hart_verdicts))]
fn verdicts(line: &mut Line<512>, counts: &HartCounts)
    requires { length line.old + 146 ≤ 512 }
    ensures text { line.new ≡ with_hart_verdicts line.old counts.now }
    ensures grows { length line.new ≤ length line.old + 146 }
{
    line.add(b" accesses=");
    line.number(counts.accesses);
    line.add(b" ok=");
    line.number(counts.ok);
    line.add(b" unmapped=");
    line.number(counts.unmapped);
    line.add(b" denied=");
    line.number(counts.denied);
    line.add(b" notcanonical=");
    line.number(counts.not_canonical);
}

#[tactic(auto, unfolding(crate::specs::Lines::with_hart_walks))]
fn walks(line: &mut Line<512>, counts: &HartCounts)
    requires { length line.old + 81 ≤ 512 }
    ensures text { line.new ≡ with_hart_walks line.old counts.now }
    ensures grows { length line.new ≤ length line.old + 81 }
{
    line.add(b" hits=");
    line.number(counts.hits);
    line.add(b" misses=");
    line.number(counts.misses);
    line.add(b" reads=");
    line.number(counts.reads);
}

#[tactic(auto, unfolding(crate::specs::Lines::with_hart_takes))]
fn takes(line: &mut Line<512>, counts: &HartCounts)
    requires { length line.old + 83 ≤ 512 }
    ensures text { line.new ≡ with_hart_takes line.old counts.now }
    ensures grows { length line.new ≤ length line.old + 83 }
{
    line.add(b" taken=");
    line.number(counts.taken);
    line.add(b" invalidated=");
    line.number(counts.invalidated);
    line.add(b" pasum=");
    line.hex(counts.pasum);
}

/// Appends the line of all harts together: the commands done, the refusals by their numbers, the
/// requests in all queues, and the frames held back.
///
/// # Errors
///
/// `Failed` only where the sink's faults rose; then the beginning of the line was appended.
#[tactic(auto, unfolding(crate::specs::Lines::all_counts_line))]
pub fn write_all_counts<K: Sink>(out: &mut K, counts: &AllCounts) -> Result<(), Failed>
    ensures { SinkAfter K.sink (all_counts_line counts.now) out.old out.new
        (is_ok result) }
{
    let mut line = Line::<512>::new();
    commands(&mut line, counts);
    queues(&mut line, counts);
    line.add(b"\n");
    put_all(out, line.bytes())
}

#[tactic(auto, unfolding(crate::specs::Lines::with_all_commands))]
fn commands(line: &mut Line<512>, counts: &AllCounts)
    requires { length line.old + 304 ≤ 512 }
    ensures text { line.new ≡ with_all_commands line.old counts.now }
    ensures grows { length line.new ≤ length line.old + 304 }
{
    line.add(b"harts accepted=");
    line.number(counts.accepted);
    line.add(b" refused=");
    numbers(line, &counts.refused);
}

/// Puts numbers at the line's end, parted by commas.
fn numbers(line: &mut Line<512>, numbers: &[u64])
    requires few { length numbers.now ≤ 12 }
    requires room { length line.old + 260 ≤ 512 }
    ensures text { line.new ≡ with_numbers line.old numbers.now }
    ensures grows { length line.new ≤ length line.old + 260 }
{
    if let Some((first, others)) = numbers.split_first() {
        line.number(*first);
        rest(line, others);
    }
}

/// Puts numbers at the line's end, each after a comma.
fn rest(line: &mut Line<512>, numbers: &[u64])
    requires few { length numbers.now ≤ 11 }
    requires room { length line.old + 231 ≤ 512 }
    ensures text { line.new ≡ with_rest line.old numbers.now }
    ensures grows { length line.new ≤ length line.old + 231 }
{
    for number in numbers {
        line.add(b",");
        line.number(*number);
    }
}

#[tactic(auto, unfolding(crate::specs::Lines::with_all_queues))]
fn queues(line: &mut Line<512>, counts: &AllCounts)
    requires { length line.old + 55 ≤ 512 }
    ensures text { line.new ≡ with_all_queues line.old counts.now }
    ensures grows { length line.new ≤ length line.old + 55 }
{
    line.add(b" waiting=");
    line.number(counts.waiting);
    line.add(b" held=");
    line.number(counts.held);
}
