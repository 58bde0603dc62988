//! The line of a row.

ghost use Rattle.std.specs.Prelude.{◌≡◌, ◌+◌, ◌≤◌, ◌<◌, ◌++◌, ℕ, length, codes, decimal, is_ok};
ghost use Rattle.xl_model.specs.Lines.{with_verdicts, with_refusals, with_numbers, with_rest, with_walks, with_moves, with_fences, with_tlb, with_arrays, with_more_arrays, row_line};
ghost use Rattle.xl_outside.specs.Sinks.{SinkAfter};

use crate::line::Line;
use xl_model::{Counts, Row};
use xl_outside::{Failed, Sink, put_all};

/// Appends the line of a row: its name, and each count after its name.
///
/// # Errors
///
/// `Failed` only where the sink's faults rose; then the beginning of the line was appended.
pub fn write_row<K: Sink>(out: &mut K, row: &Row, counts: &Counts) -> Result<(), Failed>
    requires { counts.now.arrays ≤ 6 }
    ensures { SinkAfter K.sink (row_line row.now.name.bytes counts.now)
        out.old out.new (is_ok result) }
{
    let mut line = Line::<1024>::new();
    fill(&mut line, row.name.as_bytes(), counts);
    put_all(out, line.bytes())
}

/// Puts the whole line of a row together.
#[tactic(auto, unfolding(xl_model::specs::Lines::row_line))]
fn fill(line: &mut Line<1024>, name: &[u8], counts: &Counts)
    requires empty { length line.old ≡ 0 }
    requires name { length name.now ≤ 16 }
    requires arrays { counts.now.arrays ≤ 6 }
    ensures { line.new ≡ row_line name.now counts.now }
{
    line.add(name);
    verdicts(line, counts);
    refusals(line, counts);
    walks(line, counts);
    moves(line, counts);
    fences(line, counts);
    tlb(line, counts);
    line.add(b"\n");
}

#[tactic(auto, unfolding(xl_model::specs::Lines::with_verdicts))]
fn verdicts(line: &mut Line<1024>, counts: &Counts)
    requires { length line.old + 176 ≤ 1024 }
    ensures text { line.new ≡ with_verdicts line.old counts.now }
    ensures grows { length line.new ≤ length line.old + 176 }
{
    line.add(b" accesses=");
    line.number(counts.accesses);
    line.add(b" ok=");
    line.number(counts.ok);
    line.add(b" unmapped=");
    line.number(counts.unmapped);
    line.add(b" denied=");
    line.number(counts.denied);
    line.add(b" notcanonical=");
    line.number(counts.not_canonical);
    line.add(b" accepted=");
    line.number(counts.accepted);
}

#[tactic(auto, unfolding(xl_model::specs::Lines::with_refusals))]
fn refusals(line: &mut Line<1024>, counts: &Counts)
    requires { length line.old + 200 ≤ 1024 }
    ensures text { line.new ≡ with_refusals line.old counts.now }
    ensures grows { length line.new ≤ length line.old + 200 }
{
    line.add(b" refused=");
    numbers(line, &counts.refused);
}

/// Puts numbers at the line's end, parted by commas.
fn numbers(line: &mut Line<1024>, numbers: &[u64])
    requires few { length numbers.now ≤ 9 }
    requires room { length line.old + 190 ≤ 1024 }
    ensures text { line.new ≡ with_numbers line.old numbers.now }
    ensures grows { length line.new ≤ length line.old + 190 }
{
    if let Some((first, others)) = numbers.split_first() {
        line.number(*first);
        rest(line, others);
    }
}

/// Puts numbers at the line's end, each after a comma.
fn rest(line: &mut Line<1024>, numbers: &[u64])
    requires few { length numbers.now ≤ 8 }
    requires room { length line.old + 168 ≤ 1024 }
    ensures text { line.new ≡ with_rest line.old numbers.now }
    ensures grows { length line.new ≤ length line.old + 168 }
{
    for number in numbers {
        line.add(b",");
        line.number(*number);
    }
}

#[tactic(auto, unfolding(xl_model::specs::Lines::with_walks))]
fn walks(line: &mut Line<1024>, counts: &Counts)
    requires { length line.old + 110 ≤ 1024 }
    ensures text { line.new ≡ with_walks line.old counts.now }
    ensures grows { length line.new ≤ length line.old + 110 }
{
    line.add(b" walks=");
    line.number(counts.walks);
    line.add(b" reads=");
    line.number(counts.reads);
    line.add(b" wchits=");
    line.number(counts.wc_hits);
    line.add(b" fills=");
    line.number(counts.fills);
}

#[tactic(auto, unfolding(xl_model::specs::Lines::with_moves))]
fn moves(line: &mut Line<1024>, counts: &Counts)
    requires { length line.old + 114 ≤ 1024 }
    ensures text { line.new ≡ with_moves line.old counts.now }
    ensures grows { length line.new ≤ length line.old + 114 }
{
    line.add(b" kicks=");
    line.number(counts.kicks);
    line.add(b" undone=");
    line.number(counts.undone);
    line.add(b" migrated=");
    line.number(counts.migrated);
    line.add(b" growths=");
    line.number(counts.growths);
}

#[tactic(auto, unfolding(xl_model::specs::Lines::with_fences))]
fn fences(line: &mut Line<1024>, counts: &Counts)
    requires { length line.old + 84 ≤ 1024 }
    ensures text { line.new ≡ with_fences line.old counts.now }
    ensures grows { length line.new ≤ length line.old + 84 }
{
    line.add(b" fences=");
    line.number(counts.fences);
    line.add(b" invalidated=");
    line.number(counts.invalidated);
    line.add(b" pasum=");
    line.hex(counts.pasum);
}

#[tactic(auto, unfolding(xl_model::specs::Lines::with_tlb))]
fn tlb(line: &mut Line<1024>, counts: &Counts)
    requires arrays { counts.now.arrays ≤ 6 }
    requires room { length line.old + 260 ≤ 1024 }
    ensures text { line.new ≡ with_tlb line.old counts.now }
    ensures grows { length line.new ≤ length line.old + 260 }
{
    line.add(b" tlb=");
    arrays(line, counts.arrays, &counts.hits, &counts.misses);
}

/// Puts the hits and misses of `count` arrays at the line's end; a dash for none.
fn arrays(line: &mut Line<1024>, count: usize, hits: &[u64], misses: &[u64])
    requires count { count ≤ 6 }
    requires hits { length hits.now ≡ 6 }
    requires misses { length misses.now ≡ 6 }
    requires room { length line.old + 254 ≤ 1024 }
    ensures text { line.new ≡ with_arrays line.old count hits.now misses.now }
    ensures grows { length line.new ≤ length line.old + 254 }
{
    if count == 0 {
        line.add(b"-");
        return;
    }
    pair(line, hits[0], misses[0]);
    for i in 1..count {
        line.add(b",");
        pair(line, hits[i], misses[i]);
    }
}

fn pair(line: &mut Line<1024>, hits: u64, misses: u64)
    requires { length line.old + 41 ≤ 1024 }
    ensures text { line.new ≡ line.old ++ decimal hits ++ codes "/" ++ decimal misses }
    ensures grows { length line.new ≤ length line.old + 41 }
{
    line.number(hits);
    line.add(b"/");
    line.number(misses);
}
