//! Opening a machine, and its accessors.

ghost use Rattle.std.specs.Prelude.{◌≡◌, ◌≤◌, IfOk};
ghost use Rattle.xl_model.specs.Mapping.{leaf_at_page};
ghost use Rattle.xl_model.specs.RowRun.{opening};
ghost use Rattle.xl_model.specs.Rows.{row_of, IsRow};
ghost use Rattle.xl_model.specs.Structures.{IsPage};
ghost use Rattle.xl_machine.specs.Served.{opened};

use crate::machine::Machine;
use crate::span::Span;
use std::alloc::Global;
use xl_frames::Frames;
use xl_model::{Counts, Leaf, NoMemory, Row, Structure};
use xl_tlb::Tlb;

impl<S: Structure> Machine<S> {
    /// The machine of a row in its opening state, over a table in its opening state.
    ///
    /// # Errors
    ///
    /// `NoMemory` where there is no memory.
    pub fn open(alloc: Global, row: Row, table: S) -> Result<Machine<S>, NoMemory>
        requires row { IsRow (row_of row) }
        requires table { S.table table ≡ (opening (row_of row)).table }
        ensures { IfOk result (λ m. m ≡ opened (row_of row)) }
    {
        let frames = Frames::open(alloc, row.frames)?;
        let tlb = Tlb::open(alloc, &row.tlb)?;
        let counts = Counts::none(row.tlb.len());
        let span = Span::of(row.mode);
        Ok(Machine {
            row,
            span,
            table,
            frames,
            tlb,
            space: 0,
            counts,
        })
    }

    /// The row.
    pub fn row(&self) -> &Row
        ensures { row_of result.now ≡ self.now.row }
    {
        &self.row
    }

    /// The table.
    pub fn table(&self) -> &S
        ensures { S.table result.now ≡ self.now.state.table }
    {
        &self.table
    }

    /// The current space.
    pub fn space(&self) -> u16
        ensures { result ≡ self.now.state.space }
    {
        self.space
    }

    /// The leaf that covers a page, None exactly where there is none.
    pub fn leaf_at(&self, space: u16, page: u64) -> Option<Leaf>
        requires { IsPage self.now.state.table.shape space page }
        ensures { result ≡ leaf_at_page space page self.now.state.table.leaves }
    {
        self.table.leaf_at(space, page)
    }

    /// The counts so far.
    pub fn counts(&self) -> Counts
        ensures counts { result ≡ self.now.state.counts }
        ensures few { result.arrays ≤ 6 }
        ensures reads { result.reads ≡ self.now.state.table.loads }
    {
        Counts {
            arrays: self.row.tlb.len(),
            reads: self.table.loads(),
            hits: self.tlb.all_hits(),
            misses: self.tlb.all_misses(),
            fills: self.tlb.fills(),
            ..self.counts
        }
    }
}
