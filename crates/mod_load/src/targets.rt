//! The functions of slots, kept by the numbers of their modules.

ghost use Rattle.std.specs.Prelude.{◌≡◌, ◌<◌, List, Option, length, map, slice_set, All};
ghost use Rattle.elf_model.specs.declared.func.Func.{Func};
ghost use Rattle.load_laws.specs.parts.Premises.{HaveOwnNumbers};
ghost use Rattle.load_model.specs.declared.module.Joining.{Joining};
ghost use Rattle.mod_load.specs.parts.Targets.{AreKept, target_in};

use elf_model::Func;
use fd_base::Seq;
use load_model::Joining;
use load_state::Targets;

/// Puts the functions of a module's slots into its place.
fn put_own(targets: &mut Vec<Targets>, number: u32, own: Targets)
    requires { number < length targets.old.items }
    ensures { targets.new.items ≡ slice_set targets.old.items number own }
{
    targets[number as usize] = own;
}

/// Puts the functions of new modules' slots into the places of their numbers, in order. Takes no memory.
pub(crate) fn put_targets(targets: &mut Vec<Targets>, joining: &[Joining], made: Seq<Targets>)
    requires numbers { HaveOwnNumbers joining.now }
    requires places { All (λ j. j.number < length targets.old.items) joining.now }
    requires count { length made ≡ length joining.now }
    ensures { (own : Joining → List (Option Func)) → made ≡ map own joining.now → AreKept own joining.now targets.old.items targets.new.items }
{
    let mut left = made.into_vec().into_iter();
    for new in joining {
        let Some(own) = left.next() else {
            unreachable!();
        };
        put_own(targets, new.number, own);
    }
}

/// The function that is kept for slot `k` of module `m`.
pub(crate) fn target_at(targets: &[Targets], m: u32, k: u32) -> Option<Func>
    ensures { result ≡ target_in targets.now m k }
{
    let own = targets.get(m as usize)?;
    let target = own.as_slice().get(k as usize)?;
    *target
}
