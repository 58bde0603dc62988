//! A place of the rack: a machine over one of the tables.

ghost use Rattle.std.specs.Prelude.{◌≡◌, ◌≤◌, ◌==◌, IfOk, length};
ghost use Rattle.xl_machine.specs.Served.{opened};
ghost use Rattle.xl_model.specs.declared.row.Table.TheVariants as table;
ghost use Rattle.xl_model.specs.Addresses.{levels_of};
ghost use Rattle.xl_model.specs.Rows.{row_of, IsRow};
ghost use Rattle.xl_rack.specs.Forms.{IsCuckoo};
ghost use Rattle.xl_rack.specs.Slots.{served_of, slot_form, IsNamed};

use std::alloc::Global;
use xl_clustered::Clustered;
use xl_cuckoo_walk::CuckooRow;
use xl_hashed::Hashed;
use xl_machine::Machine;
use xl_model::{Counts, Mode, NoMemory, Row, Structure, Table};
use xl_radix_walk::RadixRow;
use xl_range::Ranges;

/// A machine of a rack. The variant is the one that its row's table and mode name.
#[derive(Drop)]
pub enum Slot {
    Sv39(Machine<RadixRow<3>>),
    Sv48(Machine<RadixRow<4>>),
    Sv57(Machine<RadixRow<5>>),
    Hashed(Machine<Hashed>),
    Clustered(Machine<Clustered>),
    Cuckoo2(Machine<CuckooRow<2>>),
    Cuckoo3(Machine<CuckooRow<3>>),
    Cuckoo4(Machine<CuckooRow<4>>),
    Range(Machine<Ranges>),
}

/// `$call` with the machine, whatever its table.
macro_rules! at_table {
    ($slot:expr, $machine:ident => $call:expr) => {
        match $slot {
            Slot::Sv39($machine) => $call,
            Slot::Sv48($machine) => $call,
            Slot::Sv57($machine) => $call,
            Slot::Hashed($machine) => $call,
            Slot::Clustered($machine) => $call,
            Slot::Cuckoo2($machine) => $call,
            Slot::Cuckoo3($machine) => $call,
            Slot::Cuckoo4($machine) => $call,
            Slot::Range($machine) => $call,
        }
    };
}

pub(crate) use at_table;

/// A machine's row, and whether it has no arrays.
#[derive(Drop)]
pub(crate) struct Brief<'a> {
    pub(crate) row: &'a Row,
    pub(crate) lacks_tlb: bool,
}

fn brief_of<S: Structure>(machine: &Machine<S>) -> Brief<'_>
    ensures row { row_of result.row.now ≡ machine.entry.now.row }
    ensures lacks_tlb { result.lacks_tlb ≡ (length machine.entry.now.state.arrays == 0) }
{
    Brief {
        row: machine.row(),
        lacks_tlb: machine.lacks_tlb(),
    }
}

/// The machine of a row with a radix table of LEVELS levels.
fn open_radix<const LEVELS: usize>(
    alloc: Global,
    row: Row,
    table_frames: u32,
    widths: [u8; 4],
) -> Result<Machine<RadixRow<LEVELS>>, NoMemory>
    requires row { IsRow (row_of row) }
    requires levels { levels_of row.mode ≡ LEVELS }
    requires table { row.table ≡ table.Radix table_frames widths }
    ensures { IfOk result (λ m. m ≡ opened (row_of row)) }
{
    let table = RadixRow::open(alloc, table_frames, row.spaces, widths)?;
    Machine::open(alloc, row, table)
}

/// The machine of a row with a hashed table.
fn open_hashed(
    alloc: Global,
    row: Row,
    buckets: u32,
    entries: u32,
) -> Result<Machine<Hashed>, NoMemory>
    requires row { IsRow (row_of row) }
    requires table { row.table ≡ table.Hashed buckets entries }
    ensures { IfOk result (λ m. m ≡ opened (row_of row)) }
{
    let table = Hashed::open(alloc, buckets, entries)?;
    Machine::open(alloc, row, table)
}

/// The machine of a row with a clustered table.
fn open_clustered(
    alloc: Global,
    row: Row,
    buckets: u32,
    blocks: u32,
) -> Result<Machine<Clustered>, NoMemory>
    requires row { IsRow (row_of row) }
    requires table { row.table ≡ table.Clustered buckets blocks }
    ensures { IfOk result (λ m. m ≡ opened (row_of row)) }
{
    let table = Clustered::open(alloc, buckets, blocks)?;
    Machine::open(alloc, row, table)
}

/// The machine of a row with a cuckoo table of `D` ways.
fn open_cuckoo<const D: usize>(alloc: Global, row: Row) -> Result<Machine<CuckooRow<D>>, NoMemory>
    requires row { IsRow (row_of row) }
    requires table { IsCuckoo D row.table }
    ensures { IfOk result (λ m. m ≡ opened (row_of row)) }
{
    let Table::Cuckoo {
        start_bits,
        cap_bits,
        threshold,
        kick_limit,
        migrate,
        sections_2m,
        sections_1g,
        caches,
        ..
    } = row.table
    else {
        unreachable!()
    };
    let table = CuckooRow::open(
        alloc,
        start_bits,
        cap_bits,
        threshold,
        kick_limit,
        migrate,
        sections_2m,
        sections_1g,
        caches,
    )?;
    Machine::open(alloc, row, table)
}

/// The machine of a row with a table of ranges.
fn open_ranges(
    alloc: Global,
    row: Row,
    ranges: u32,
    range_tlb: u8,
) -> Result<Machine<Ranges>, NoMemory>
    requires row { IsRow (row_of row) }
    requires table { row.table ≡ table.Range ranges range_tlb }
    ensures { IfOk result (λ m. m ≡ opened (row_of row)) }
{
    let table = Ranges::open(alloc, ranges, range_tlb)?;
    Machine::open(alloc, row, table)
}

impl Slot {
    /// The machine of a row in its opening state, over the table that the row names.
    ///
    /// # Errors
    ///
    /// `NoMemory` where there is no memory.
    pub(crate) fn open(alloc: Global, row: Row) -> Result<Slot, NoMemory>
        requires row { IsRow (row_of row) }
        ensures served { IfOk result (λ slot. served_of slot ≡ opened (row_of row)) }
        ensures named { IfOk result IsNamed }
    {
        match row.table {
            Table::Radix {
                table_frames,
                caches,
            } => Slot::open_levels(alloc, row, table_frames, caches),
            Table::Hashed { buckets, entries } => {
                Ok(Slot::Hashed(open_hashed(alloc, row, buckets, entries)?))
            }
            Table::Clustered { buckets, blocks } => {
                Ok(Slot::Clustered(open_clustered(alloc, row, buckets, blocks)?))
            }
            Table::Cuckoo { ways, .. } => Slot::open_ways(alloc, row, ways),
            Table::Range { ranges, range_tlb } => {
                Ok(Slot::Range(open_ranges(alloc, row, ranges, range_tlb)?))
            }
        }
    }

    /// The machine of a row with a radix table, of as many levels as the mode has.
    fn open_levels(
        alloc: Global,
        row: Row,
        table_frames: u32,
        widths: [u8; 4],
    ) -> Result<Slot, NoMemory>
        requires row { IsRow (row_of row) }
        requires table { row.table ≡ table.Radix table_frames widths }
        ensures served { IfOk result (λ slot. served_of slot ≡ opened (row_of row)) }
        ensures named { IfOk result IsNamed }
    {
        Ok(match row.mode {
            Mode::Sv39 => Slot::Sv39(open_radix::<3>(alloc, row, table_frames, widths)?),
            Mode::Sv48 => Slot::Sv48(open_radix::<4>(alloc, row, table_frames, widths)?),
            Mode::Sv57 => Slot::Sv57(open_radix::<5>(alloc, row, table_frames, widths)?),
        })
    }

    /// The machine of a row with a cuckoo table, of two to four ways.
    fn open_ways(alloc: Global, row: Row, ways: u8) -> Result<Slot, NoMemory>
        requires row { IsRow (row_of row) }
        requires table { IsCuckoo ways row.table }
        ensures served { IfOk result (λ slot. served_of slot ≡ opened (row_of row)) }
        ensures named { IfOk result IsNamed }
    {
        match ways {
            2 => Ok(Slot::Cuckoo2(open_cuckoo(alloc, row)?)),
            3 => Ok(Slot::Cuckoo3(open_cuckoo(alloc, row)?)),
            4 => Ok(Slot::Cuckoo4(open_cuckoo(alloc, row)?)),
            _ => unreachable!(),
        }
    }

    /// The machine's row, and whether it has no arrays.
    pub(crate) fn brief(&self) -> Brief<'_>
        ensures row { row_of result.row.now ≡ (served_of self.entry.now).row }
        ensures lacks_tlb { result.lacks_tlb
            ≡ (length (served_of self.entry.now).state.arrays == 0) }
    {
        at_table!(self, machine => brief_of(machine))
    }

    /// The counts so far.
    pub(crate) fn counts(&self) -> Counts
        ensures counts { result ≡ (served_of self.now).state.counts }
        ensures few { result.arrays ≤ 6 }
    {
        at_table!(self, machine => machine.counts())
    }
}
