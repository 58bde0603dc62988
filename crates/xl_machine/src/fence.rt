//! A fence of the arrays and of the table's caches.

ghost use Rattle.std.specs.Prelude.{◌≡◌, None};
ghost use Rattle.xl_model.specs.RowRun.{reach_of as reach_by};
ghost use Rattle.xl_model.specs.Rows.{row_of};
ghost use Rattle.xl_model.specs.declared.event.Event.TheVariants as event;
ghost use Rattle.xl_machine.specs.Rules.{rule_of};
ghost use Rattle.xl_machine.specs.Served.{after_of, fence_counts};

use crate::machine::Machine;
use xl_model::{Counts, Reach, Row, Scope, Structure, page_of};

/// What a fence reaches, by page.
fn reach_of(row: &Row, scope: Scope) -> Reach
    ensures { result ≡ reach_by (row_of row.now) scope }
{
    match scope {
        Scope::All => Reach::All,
        Scope::Space { space } => Reach::Space { space },
        Scope::Addr { va } => Reach::Addr {
            page: page_of(row.mode, va),
        },
        Scope::Page { space, va } => Reach::Page {
            space,
            page: page_of(row.mode, va),
        },
    }
}

/// Counts a fence, with what left the caches and the arrays.
fn count(counts: &mut Counts, entries: u64, leaves: u64)
    ensures { counts.new ≡ fence_counts entries leaves counts.old }
{
    counts.invalidate(entries);
    counts.invalidate(leaves);
    counts.accept();
    counts.fence();
}

impl<S: Structure> Machine<S> {
    /// Removes from the arrays and from the table's caches what a fence reaches.
    pub(crate) fn fence(&mut self, scope: Scope)
        requires { rule_of (event.Fence scope) self.old ≡ None }
        ensures { self.new ≡ after_of (event.Fence scope) self.old }
    {
        let reach = reach_of(&self.row, scope);
        let entries = self.table.fence(reach);
        let leaves = self.tlb.fence(reach);
        count(&mut self.counts, entries, leaves);
    }
}
