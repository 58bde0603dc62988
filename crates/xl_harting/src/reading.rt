//! The reading of a script of harts.

ghost use Rattle.xl_hart_script.specs.Scripts.{HartText, harts_script_of};
ghost use Rattle.xl_harting.specs.Cuts.{script_cut};

use std::alloc::Global;
use xl_hart_script::{HartScript, parse_harts};
use xl_paired::Parser;
use xl_script::ScriptFault;

/// The reader of scripts of harts.
#[derive(Drop)]
pub(crate) struct HartParser;

impl Parser for HartParser {
    type Script = HartScript;

    ghost Said = { HartText };

    ghost said = { λ s. s };

    ghost says = { harts_script_of };

    fn parse(alloc: Global, text: &[u8]) -> Result<HartScript, ScriptFault> {
        parse_harts(alloc, text)
    }

    ghost cut = { script_cut };
}
