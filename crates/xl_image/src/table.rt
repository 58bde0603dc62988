//! The lines of a radix table's words, node by node.

ghost use Rattle.std.specs.Prelude.{◌<◌, None, is_ok, length, slice_index_or, IfSome};
ghost use Rattle.xl_model.specs.Report.{word_lines};
ghost use Rattle.xl_model.specs.Image.{image, words_from};
ghost use Rattle.xl_outside.specs.Sinks.{SinkAfter};

use xl_model::Row;
use xl_outside::{Failed, Sink};
use xl_radix::Radix;
use xl_report::write_image;

/// The most node numbers of a table.
const MOST_NODES: usize = 16_384;

/// The words of a node.
const WORDS: u32 = 512;

/// Writes a line for each word of a node that isn't 0.
fn write_node<const LEVELS: usize, K: Sink>(
    out: &mut K,
    row: &Row,
    radix: &Radix<LEVELS>,
    number: u32,
) -> Result<(), Failed>
    requires { number < length radix.now.nodes }
    ensures { IfSome (slice_index_or radix.now.nodes number None) (λ node.
        SinkAfter K.sink (word_lines row.now.name.bytes
        (words_from radix.now.leaves radix.now.nodes number node 0 512))
        out.old out.new (is_ok result)) }
{
    radix.words_read_back();
    for index in 0..WORDS {
        let word = radix.word(number, index);
        if word != 0 {
            match write_image(out, row, number, index, word) {
                Ok(()) => {}
                Err(failed) => return Err(failed),
            }
        }
    }
    Ok(())
}

/// Writes a line for each word of a radix table that isn't 0. A number that no node has is passed
/// over: its words are 0.
///
/// # Errors
///
/// `Failed` where a put fails; then a front of the lines was written.
pub fn write_table<const LEVELS: usize, K: Sink>(
    out: &mut K,
    row: &Row,
    radix: &Radix<LEVELS>,
) -> Result<(), Failed>
    ensures { SinkAfter K.sink
        (word_lines row.now.name.bytes (image radix.now.leaves radix.now.nodes))
        out.old out.new (is_ok result) }
{
    radix.words_read_back();
    for number in 0..MOST_NODES {
        if radix.has_number(number) {
            match write_node(out, row, radix, number as u32) {
                Ok(()) => {}
                Err(failed) => return Err(failed),
            }
        }
    }
    Ok(())
}
