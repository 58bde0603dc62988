//! The line of a row's curve.

ghost use Rattle.std.specs.Prelude.{◌≡◌, ◌+◌, ◌*◌, ◌≤◌, ◌++◌, length, codes, decimal, is_ok};
ghost use Rattle.xl_curve_model.specs.CurveLines.{curve_line, with_lookups};
ghost use Rattle.xl_model.specs.Lines.{with_numbers, with_rest};
ghost use Rattle.xl_outside.specs.Sinks.{SinkAfter};

use xl_model::Row;
use xl_outside::{Failed, Sink, put_all};
use xl_report::Line;

/// Appends the line of a row's curve: its name, the number of sets, that of look-ups, and the hits
/// of each width from 1 to 64.
///
/// # Errors
///
/// `Failed` only where the sink's faults rose; then the beginning of the line was appended.
pub fn write_curve<K: Sink>(
    out: &mut K,
    row: &Row,
    sets: u32,
    lookups: u64,
    hits: &[u64; 64],
) -> Result<(), Failed>
    ensures { SinkAfter K.sink
        (curve_line row.now.name.bytes sets lookups hits.now) out.old out.new (is_ok result) }
{
    let mut line = Line::<1536>::new();
    line.add(row.name.as_bytes());
    fill(&mut line, sets, lookups, hits);
    put_all(out, line.bytes())
}

/// Puts the whole line after the name.
#[tactic(auto, unfolding(xl_curve_model::specs::CurveLines::curve_line))]
fn fill(line: &mut Line<1536>, sets: u32, lookups: u64, hits: &[u64])
    requires name { length line.old ≤ 16 }
    requires widths { length hits.now ≤ 64 }
    ensures { line.new ≡ curve_line line.old sets lookups hits.now }
{
    heads(line, sets, lookups);
    line.add(b" hits=");
    numbers(line, hits);
    line.add(b"\n");
}

#[tactic(auto, unfolding(xl_curve_model::specs::CurveLines::with_lookups))]
fn heads(line: &mut Line<1536>, sets: u32, lookups: u64)
    requires { length line.old ≤ 16 }
    ensures text { line.new ≡ with_lookups line.old sets lookups }
    ensures grows { length line.new ≤ length line.old + 61 }
{
    line.add(b" curve sets=");
    line.number(sets as u64);
    line.add(b" lookups=");
    line.number(lookups);
}

/// Puts numbers at the line's end, parted by commas.
fn numbers(line: &mut Line<1536>, numbers: &[u64])
    requires few { length numbers.now ≤ 64 }
    requires room { length line.old + 1364 ≤ 1536 }
    ensures text { line.new ≡ with_numbers line.old numbers.now }
    ensures grows { length line.new ≤ length line.old + 1364 }
{
    if let Some((first, others)) = numbers.split_first() {
        line.number(*first);
        rest(line, others);
    }
}

/// Puts numbers at the line's end, each after a comma.
fn rest(line: &mut Line<1536>, numbers: &[u64])
    requires few { length numbers.now ≤ 64 }
    requires room { length line.old + 1344 ≤ 1536 }
    ensures text { line.new ≡ with_rest line.old numbers.now }
    ensures grows { length line.new ≤ length line.old + 21 * length numbers.now }
{
    for number in numbers {
        line.add(b",");
        line.number(*number);
    }
}
