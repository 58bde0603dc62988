//! The machines that a run serves.

ghost use Rattle.std.specs.Prelude.{◌≡◌, IfOk, option_map};
ghost use Rattle.xl_bench.specs.Machines.{no_machines};

use std::alloc::Global;
use std::marker::Model;
use xl_harts::Harts;
use xl_model::NoMemory;
use xl_nested::Nested;
use xl_rack::Rack;

/// The machines of a run: the rows of a configuration, or the machine of two-stage translation, or
/// that of several harts. A run opens those of its form and no others. No call takes one away or
/// sets a state, so states come from events that were served.
#[derive(Drop)]
pub struct Machines {
    pub(crate) rows: Rack,
    pub(crate) nested: Option<Nested>,
    pub(crate) harts: Option<Harts>,
}

impl Model for Machines {
    ghost use Rattle.xl_bench.specs.Machines.{MachineStates};

    ghost Value = { MachineStates };

    ghost view = { λ m. record { rows = m.rows; nested = m.nested; harts = m.harts } };
}

impl Machines {
    /// No machines, with room for sixteen rows.
    ///
    /// # Errors
    ///
    /// `NoMemory` where there is no memory.
    pub fn open(alloc: Global) -> Result<Machines, NoMemory>
        ensures { IfOk result (λ m. m ≡ no_machines) }
    {
        Ok(Machines {
            rows: Rack::open(alloc)?,
            nested: None,
            harts: None,
        })
    }

    /// The rows, each with its machine.
    pub fn rows(&self) -> &Rack
        ensures { result.now ≡ self.entry.now.rows }
    {
        &self.rows
    }

    /// The machine of two-stage translation, where one was opened.
    pub fn nested(&self) -> Option<&Nested>
        ensures { option_map (λ n. n.now) result ≡ self.entry.now.nested }
    {
        self.nested.as_ref()
    }

    /// The machine of several harts, where one was opened.
    pub fn harts(&self) -> Option<&Harts>
        ensures { option_map (λ h. h.now) result ≡ self.entry.now.harts }
    {
        self.harts.as_ref()
    }
}
