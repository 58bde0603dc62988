//! Harts as a form of the program.

ghost use Rattle.std.specs.Prelude.{◌≡◌, All, false};
ghost use Rattle.xl_hart_model.specs.declared.hart.HartEvent.{HartEvent};
ghost use Rattle.xl_hart_model.specs.Harts.{HartsState};
ghost use Rattle.xl_hart_script.specs.Scripts.{IsReady};
ghost use Rattle.xl_paired.specs.Pairs.{Item, meaning_of};
ghost use Rattle.xl_harting.specs.Harting.{harts_form, harts_lines};

use crate::ending::write_end;
use crate::events::{reply, serve_accesses, serve_events};
use xl_course::{Form, Source, Stop};
use xl_hart_report::write_hart;
use xl_hart_script::HartCommand;
use xl_harts::Harts;
use xl_lackey::{Access, Batch};
use xl_outside::{Failed, Sink};
use xl_report::Answered;

/// The form of harts. Beside them it keeps room for accesses that the trace gives together.
#[derive(Drop)]
pub struct Harting {
    accesses: Batch,
}

impl Harting {
    /// The form.
    pub fn new() -> Harting {
        Harting {
            accesses: Batch::new(),
        }
    }
}

impl Form<Harts> for Harting {
    type Command = HartCommand;

    type End = ();

    ghost Item = { Item HartEvent };

    ghost State = { HartsState };

    ghost meaning = { meaning_of harts_form };

    ghost state = { λ _ harts. harts };

    ghost can = { λ _ _ commands. All IsReady commands };

    ghost last = { λ _ s. harts_lines s };

    ghost late = { λ _. false };

    ghost holds = { λ harts s. harts ≡ s };

    fn command<K: Sink>(
        &mut self,
        harts: &mut Harts,
        command: HartCommand,
        _answers: bool,
        _out: &mut K,
    ) -> Result<(), Failed> {
        if let HartCommand::Events { first, n } = command {
            serve_events(harts, first, n);
        }
        Ok(())
    }

    #[inline(always)]
    fn access<K: Sink>(
        &mut self,
        harts: &mut Harts,
        number: u64,
        access: Access,
        answers: bool,
        out: &mut K,
    ) -> Result<(), Failed> {
        if !answers {
            reply(harts, access.va, access.kind);
            return Ok(());
        }
        let hart = harts.current();
        let space = harts.space(hart);
        let Access { va, kind } = access;
        let reply = reply(harts, va, kind);
        let answered = Answered {
            number,
            kind,
            space,
            va,
            reply,
        };
        write_hart(out, hart, answered)
    }

    #[inline(always)]
    fn skim<T: Source>(&mut self, harts: &mut Harts, source: &mut T, most: u64) -> u64 {
        self.accesses.clear();
        let taken = source.skim(&mut self.accesses, most);
        serve_accesses(harts, self.accesses.as_slice());
        taken
    }

    fn finish<K: Sink>(&mut self, harts: &mut Harts, _end: (), out: &mut K) -> Result<(), Stop> {
        match write_end(harts, out) {
            Ok(()) => Ok(()),
            Err(_) => Err(Stop::WriteFault),
        }
    }
}
