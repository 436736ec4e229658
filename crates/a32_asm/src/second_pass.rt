//! The second pass: what each line puts, or the first line that is refused.

ghost use Rattle.std.specs.Prelude.{◌≡◌, ◌<◌, ◌^◌, length};
ghost use Rattle.a32_asm.specs.Layout.{start};
ghost use Rattle.a32_asm.specs.SecondPass as spec;
ghost use Rattle.a32_asm.specs.parts.Answers.{Answers};
ghost use Rattle.a32_asm.specs.parts.Standing.{HavePassed};

use crate::contents::Contents;
use crate::first_pass::Passed;
use crate::refusal::AsmErr;
use crate::spot::Spot;
use std::alloc::Global;

/// The second pass over the lines of a text.
pub(crate) fn second_pass<'a>(alloc: Global, passed: &Passed<'a>) -> Result<Contents<'a>, AsmErr>
    requires passed { HavePassed passed.now }
    requires count { length passed.now.saids < 2 ^ 32 }
    ensures { Answers result (spec.second_pass passed.now.layout.known 1 start spec.nothing_yet passed.now.saids) }
{
    let Ok(mut contents) = Contents::new(alloc) else {
        return Err(AsmErr::Memory);
    };
    let known = passed.known();
    let saids = passed.saids();
    let mut spot = Spot::new();
    let mut number = 0;
    for said in saids {
        number += 1;
        match contents.add(known, spot.here, spot.offset(), &said.statement) {
            Ok(()) => {}
            Err(e) => return Err(e.at(number)),
        }
        spot.pass(&said.statement);
    }
    Ok(contents)
}
