//! Two-stage translation as a form of the program.

ghost use Rattle.std.specs.Prelude.{◌≡◌, All, false};
ghost use Rattle.xl_nested_model.specs.declared.nest.NestEvent.{NestEvent};
ghost use Rattle.xl_nested_model.specs.Nested.{NestState};
ghost use Rattle.xl_nested_script.specs.Lines.{IsPlaced};
ghost use Rattle.xl_paired.specs.Pairs.{Item, meaning_of};
ghost use Rattle.xl_nesting.specs.Nesting.{nested_form, counts_text};

use crate::events::{reply, serve_accesses, serve_events};
use xl_course::{Form, Source, Stop};
use xl_lackey::{Access, Batch};
use xl_nested::Nested;
use xl_nested_report::{write_nest, write_nest_counts};
use xl_nested_script::NestCommand;
use xl_outside::{Failed, Sink};

/// The form of two-stage translation. Beside the guest over its host it keeps room for accesses
/// that the trace gives together.
#[derive(Drop)]
pub struct Nesting {
    accesses: Batch,
}

impl Nesting {
    /// The form.
    pub fn new() -> Nesting {
        Nesting {
            accesses: Batch::new(),
        }
    }
}

impl Form<Nested> for Nesting {
    type Command = NestCommand;

    type End = ();

    ghost Item = { Item NestEvent };

    ghost State = { NestState };

    ghost meaning = { meaning_of nested_form };

    ghost state = { λ _ nested. nested };

    ghost can = { λ _ _ commands. All IsPlaced commands };

    ghost last = { λ _ s. counts_text s };

    ghost late = { λ _. false };

    ghost holds = { λ nested s. nested ≡ s };

    fn command<K: Sink>(
        &mut self,
        nested: &mut Nested,
        command: NestCommand,
        _answers: bool,
        _out: &mut K,
    ) -> Result<(), Failed> {
        if let NestCommand::Events { first, n } = command {
            serve_events(nested, first, n);
        }
        Ok(())
    }

    #[inline(always)]
    fn access<K: Sink>(
        &mut self,
        nested: &mut Nested,
        number: u64,
        access: Access,
        answers: bool,
        out: &mut K,
    ) -> Result<(), Failed> {
        let reply = reply(nested, access.va, access.kind);
        if answers {
            return write_nest(out, number, access.kind, access.va, reply);
        }
        Ok(())
    }

    #[inline(always)]
    fn skim<T: Source>(&mut self, nested: &mut Nested, source: &mut T, most: u64) -> u64 {
        self.accesses.clear();
        let taken = source.skim(&mut self.accesses, most);
        serve_accesses(nested, self.accesses.as_slice());
        taken
    }

    fn finish<K: Sink>(&mut self, nested: &mut Nested, _end: (), out: &mut K) -> Result<(), Stop> {
        match write_nest_counts(out, &nested.counts()) {
            Ok(()) => Ok(()),
            Err(_) => Err(Stop::WriteFault),
        }
    }
}
