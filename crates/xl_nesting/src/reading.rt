//! The reading of a script of the form.

ghost use Rattle.xl_nested_script.specs.Scripts.{NestText, nest_script_of};
ghost use Rattle.xl_nesting.specs.Cuts.{script_cut};

use std::alloc::Global;
use xl_nested_script::{NestScript, parse_nest};
use xl_paired::Parser;
use xl_script::ScriptFault;

/// The reader of scripts of a guest over a host.
#[derive(Drop)]
pub struct NestParser;

impl Parser for NestParser {
    type Script = NestScript;

    ghost Said = { NestText };

    ghost said = { λ s. s };

    ghost says = { nest_script_of };

    fn parse(alloc: Global, text: &[u8]) -> Result<NestScript, ScriptFault> {
        parse_nest(alloc, text)
    }

    ghost cut = { script_cut };
}
