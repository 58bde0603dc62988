//! The images of the rows' tables.

ghost use Rattle.std.specs.Prelude.{is_ok};
ghost use Rattle.xl_model.specs.Report.{image_lines, images_lines};
ghost use Rattle.xl_outside.specs.Sinks.{SinkAfter};
ghost use Rattle.xl_rack.specs.Slots.{served_of};

use crate::rack::Rack;
use crate::slot::Slot;
use xl_image::write_table;
use xl_machine::Machine;
use xl_outside::{Failed, Sink};
use xl_radix_walk::RadixRow;

/// Writes the image of a machine's radix table.
fn write_radix<const LEVELS: usize, K: Sink>(
    out: &mut K,
    machine: &Machine<RadixRow<LEVELS>>,
) -> Result<(), Failed>
    ensures { SinkAfter K.sink (image_lines machine.now.row.name
        machine.now.state.table.leaves machine.now.state.table.shape)
        out.old out.new (is_ok result) }
{
    write_table(out, machine.row(), machine.table().radix())
}

/// Writes the image of a machine's table. Only a radix table has one.
#[tactic(auto, unfolding(xl_cuckoo_walk::specs::Parts::row_state))]
fn write_slot<K: Sink>(out: &mut K, slot: &Slot) -> Result<(), Failed>
    ensures { SinkAfter K.sink
        (image_lines (served_of slot.now).row.name
        (served_of slot.now).state.table.leaves
        (served_of slot.now).state.table.shape)
        out.old out.new (is_ok result) }
{
    match slot {
        Slot::Sv39(machine) => write_radix(out, machine),
        Slot::Sv48(machine) => write_radix(out, machine),
        Slot::Sv57(machine) => write_radix(out, machine),
        Slot::Hashed(machine) => {
            // The table's shape is known by a look at it.
            let _table = machine.table();
            Ok(())
        }
        Slot::Clustered(machine) => {
            let _table = machine.table();
            Ok(())
        }
        Slot::Cuckoo2(machine) => {
            let _table = machine.table();
            Ok(())
        }
        Slot::Cuckoo3(machine) => {
            let _table = machine.table();
            Ok(())
        }
        Slot::Cuckoo4(machine) => {
            let _table = machine.table();
            Ok(())
        }
        Slot::Range(machine) => {
            let _table = machine.table();
            Ok(())
        }
    }
}

/// Writes the image of each row's table.
pub(crate) fn write_images<K: Sink>(rack: &Rack, out: &mut K) -> Result<(), Failed>
    ensures { SinkAfter K.sink (images_lines rack.now) out.old out.new
        (is_ok result) }
{
    for i in 0..rack.len() {
        match write_slot(out, rack.machine(i)) {
            Ok(()) => {}
            Err(failed) => return Err(failed),
        }
    }
    Ok(())
}
