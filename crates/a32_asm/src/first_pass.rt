//! The first pass: what each line says and where it stands, or the first line that is refused.

ghost use Rattle.std.specs.Prelude.{◌≡◌, ◌<◌, ◌-◌, ◌^◌, ◌==◌, ◌+◌, length, map, [], All, IfOk, OnOk};
ghost use Rattle.fd_base.specs.Lines.{lines_of};
ghost use Rattle.a32_asm.specs.declared.section.TheConstants.{BSS};
ghost use Rattle.a32_asm.specs.Layout.{start};
ghost use Rattle.a32_asm.specs.Line.{said_of};
ghost use Rattle.a32_asm.specs.FirstPass as spec;
ghost use Rattle.a32_asm.specs.Shown.{shown_said};
ghost use Rattle.a32_asm.specs.parts.Answers.{Answers, StepsTo};
ghost use Rattle.a32_asm.specs.parts.Fits.{IsSaid};

use crate::known::Known;
use crate::layout::Made;
use crate::line::said_of;
use crate::refusal::{AsmErr, LineErr};
use crate::said::Said;
use fd_base::Lines;
use std::alloc::Global;
use std::marker::Model;

/// What lines say that have passed, and what they have made.
#[derive(Drop)]
pub(crate) struct Passed<'a> {
    saids: Vec<Said<'a>>,
    made: Made<'a>,
}

impl<'a> Model for Passed<'a> {
    ghost use Rattle.std.specs.Prelude.{map};
    ghost use Rattle.a32_asm.specs.FirstPass.{Passed as Lines};
    ghost use Rattle.a32_asm.specs.Shown.{shown_said};

    ghost Value = { Lines };

    ghost view = { λ s. record { saids = map shown_said s.saids.items; layout = s.made } };
}

impl<'a> Passed<'a> {
    /// No lines. Takes no memory.
    fn new(alloc: Global) -> Passed<'a>
        ensures { result ≡ record { saids = []; layout = start } }
    {
        Passed {
            saids: Vec::new(alloc),
            made: Made::new(alloc),
        }
    }

    /// What lines say that have passed.
    pub(crate) fn saids(&self) -> &[Said<'a>]
        ensures { map shown_said result.now ≡ self.now.saids }
    {
        self.saids.as_slice()
    }

    /// What lines have made.
    pub(crate) fn made(&self) -> &Made<'a>
        ensures { result.now ≡ self.now.layout }
    {
        &self.made
    }

    /// The names of the text.
    pub(crate) fn known(&self) -> &Known<'a>
        ensures { result.now ≡ self.now.layout.known }
    {
        self.made.known()
    }

    /// Takes one more line.
    fn add(&mut self, line: &'a [u8]) -> Result<(), LineErr>
        requires { All IsSaid self.old.saids }
        ensures fit { OnOk result (All IsSaid self.new.saids) }
        ensures count { OnOk result (length self.new.saids ≡ length self.old.saids + 1) }
        ensures value { StepsTo result self.new (spec.with_line self.old (said_of (self.old.layout.here == BSS) line.now)) }
    {
        let said = match said_of(self.made.in_bss(), line) {
            Ok(said) => said,
            Err(kind) => return Err(LineErr::Refused(kind)),
        };
        match self.made.add(&said) {
            Ok(()) => {}
            Err(e) => return Err(e),
        }
        if self.saids.push(said).is_err() {
            return Err(LineErr::Memory);
        }
        Ok(())
    }
}

/// The first pass over a text.
pub(crate) fn first_pass<'a>(alloc: Global, text: &'a [u8]) -> Result<Passed<'a>, AsmErr>
    requires { length text.now < 2 ^ 32 - 1 }
    ensures fit { IfOk result (λ passed. All IsSaid passed.saids) }
    ensures count { IfOk result (λ passed. length passed.saids < 2 ^ 32) }
    ensures value { Answers result (spec.first_pass 1 (record { saids = []; layout = start }) (lines_of text.now)) }
{
    let mut passed = Passed::new(alloc);
    let mut lines = Lines::new(text);
    while let Some(line) = lines.next() {
        match passed.add(line.text) {
            Ok(()) => {}
            Err(e) => return Err(e.at(line.number)),
        }
    }
    Ok(passed)
}
