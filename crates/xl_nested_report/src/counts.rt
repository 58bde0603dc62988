//! The line of the counts.

ghost use Rattle.std.specs.Prelude.{◌≡◌, ◌+◌, ◌≤◌, length, is_ok};
ghost use Rattle.xl_model.specs.Lines.{with_numbers, with_rest};
ghost use Rattle.xl_outside.specs.Sinks.{SinkAfter};
ghost use Rattle.xl_nested_report.specs.Lines.{nest_counts_line, with_nest_refusals, with_nest_verdicts, with_nest_walks};

use xl_nested_model::NestCounts;
use xl_outside::{Failed, Sink, put_all};
use xl_report::Line;

/// Appends the line of the counts, each after its name.
///
/// # Errors
///
/// `Failed` only where the sink's faults rose; then the beginning of the line was appended.
#[tactic(auto, unfolding(crate::specs::Lines::nest_counts_line))]
pub fn write_nest_counts<K: Sink>(out: &mut K, counts: &NestCounts) -> Result<(), Failed>
    ensures { SinkAfter K.sink (nest_counts_line counts.now)
        out.old out.new (is_ok result) }
{
    let mut line = Line::<512>::new();
    verdicts(&mut line, counts);
    refusals(&mut line, counts);
    walks(&mut line, counts);
    line.add(b"\n");
    put_all(out, line.bytes())
}

#[tactic(auto, unfolding(crate::specs::Lines::with_nest_verdicts))]
fn verdicts(line: &mut Line<512>, counts: &NestCounts)
    requires { length line.old + 160 ≤ 512 }
    ensures text { line.new ≡ with_nest_verdicts line.old counts.now }
    ensures grows { length line.new ≤ length line.old + 160 }
{
    line.add(b"nested accesses=");
    line.number(counts.accesses);
    line.add(b" ok=");
    line.number(counts.ok);
    line.add(b" pagefaults=");
    line.number(counts.page_faults);
    line.add(b" guestfaults=");
    line.number(counts.guest_faults);
    line.add(b" accepted=");
    line.number(counts.accepted);
}

#[tactic(auto, unfolding(crate::specs::Lines::with_nest_refusals))]
fn refusals(line: &mut Line<512>, counts: &NestCounts)
    requires { length line.old + 140 ≤ 512 }
    ensures text { line.new ≡ with_nest_refusals line.old counts.now }
    ensures grows { length line.new ≤ length line.old + 140 }
{
    line.add(b" refused=");
    numbers(line, &counts.refused);
}

/// Puts numbers at the line's end, parted by commas.
fn numbers(line: &mut Line<512>, numbers: &[u64])
    requires few { length numbers.now ≤ 6 }
    requires room { length line.old + 126 ≤ 512 }
    ensures text { line.new ≡ with_numbers line.old numbers.now }
    ensures grows { length line.new ≤ length line.old + 126 }
{
    if let Some((first, others)) = numbers.split_first() {
        line.number(*first);
        rest(line, others);
    }
}

/// Puts numbers at the line's end, each after a comma.
fn rest(line: &mut Line<512>, numbers: &[u64])
    requires few { length numbers.now ≤ 5 }
    requires room { length line.old + 105 ≤ 512 }
    ensures text { line.new ≡ with_rest line.old numbers.now }
    ensures grows { length line.new ≤ length line.old + 105 }
{
    for number in numbers {
        line.add(b",");
        line.number(*number);
    }
}

#[tactic(auto, unfolding(crate::specs::Lines::with_nest_walks))]
fn walks(line: &mut Line<512>, counts: &NestCounts)
    requires { length line.old + 80 ≤ 512 }
    ensures text { line.new ≡ with_nest_walks line.old counts.now }
    ensures grows { length line.new ≤ length line.old + 80 }
{
    line.add(b" reads=");
    line.number(counts.reads);
    line.add(b" hits=");
    line.number(counts.hits);
    line.add(b" pasum=");
    line.hex(counts.pasum);
}
