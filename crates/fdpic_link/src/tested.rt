//! The tests before those of sizes.

ghost use Rattle.std.specs.Prelude.{All};
ghost use Rattle.elf_model.specs.RelSound.{IsRelSound};
ghost use Rattle.link_model.specs.parts.Passes.{Gives};
ghost use Rattle.fdpic_link.specs.parts.Stages.{IsTested, early_tests};

use elf_model::RelObjects;
use fd_base::Seq;
use link_checks::{Linking, check_entry, check_sites};
use link_model::{LinkErr, Mode};
use link_words::Facts;
use std::alloc::Global;

/// What is known of a link all tests of which have held but those of sizes.
#[derive(Drop)]
pub(crate) struct Tested<'a> {
    /// What is settled of its symbols and its layout.
    pub(crate) linking: Linking<'a>,
    /// What has been looked up of each relocation.
    pub(crate) facts: Seq<Facts>,
    /// The link address where a program begins.
    pub(crate) entry: u64,
}

/// Makes the tests before those of sizes: of names and the GOT, of each relocation, and of the entry.
pub(crate) fn test_inputs<'a>(
    alloc: Global,
    mode: Mode,
    inputs: &'a RelObjects,
) -> Result<Tested<'a>, LinkErr>
    requires { All IsRelSound inputs.now }
    ensures { Gives result (early_tests mode inputs.now) (IsTested mode inputs.now) }
{
    let linking = Linking::new(alloc, mode, inputs)?;
    let facts = check_sites(alloc, &linking)?;
    let entry = check_entry(&linking)?;
    Ok(Tested {
        linking,
        facts,
        entry,
    })
}
