//! The tests of names.

ghost use Rattle.std.specs.Prelude.{◌≡◌, [], ◌∷◌, IfOk, IfErr};
ghost use Rattle.link_model.specs.declared.error.LinkErr.TheVariants.{Memory};
ghost use Rattle.link_model.specs.parts.Passes.{Passes};
ghost use Rattle.link_names.specs.parts.Grouped.{once_test, defined_test, group_tests, all_group_tests};

use crate::group::{all_weak, definition_taken, global_definitions, visibility_of};
use crate::groups::Groups;
use crate::mention::Mention;
use crate::target::is_closed;
use fd_base::Name;
use link_model::{LinkErr, LinkRefusal, Mode};
use std::alloc::Global;

/// The name of these bytes, in memory of its own. They are a name, as names of inputs are, so that memory alone can
/// be wanted.
fn named(alloc: Global, bytes: &[u8]) -> Result<Name, LinkErr>
    ensures name { IfOk result (λ name. name ≡ bytes.now) }
    ensures memory { IfErr result (λ e. e ≡ Memory) }
{
    Name::new(alloc, bytes).map_err(|_| LinkErr::Memory)
}

/// Refuses two global definitions of a name.
fn test_once(alloc: Global, name: &[u8], group: &[Mention]) -> Result<(), LinkErr>
    ensures { Passes result (once_test name.now group.now ∷ []) }
{
    if global_definitions(group) > 1 {
        let name = named(alloc, name)?;
        return Err(LinkErr::Refused(LinkRefusal::Twice(name)));
    }
    Ok(())
}

/// Refuses a name that no input defines, where one has to.
fn test_defined(alloc: Global, mode: Mode, name: &[u8], group: &[Mention]) -> Result<(), LinkErr>
    ensures { Passes result (defined_test mode name.now group.now ∷ []) }
{
    if definition_taken(group).is_none()
        && !all_weak(group)
        && is_closed(mode, visibility_of(group))
    {
        let name = named(alloc, name)?;
        return Err(LinkErr::Refused(LinkRefusal::Undefined(name)));
    }
    Ok(())
}

/// Makes the tests of a name.
fn test_name(alloc: Global, mode: Mode, name: &[u8], group: &[Mention]) -> Result<(), LinkErr>
    ensures { Passes result (group_tests mode name.now group.now) }
{
    test_once(alloc, name, group)?;
    test_defined(alloc, mode, name, group)
}

/// Makes the tests of all names, in order.
pub(crate) fn test_names(alloc: Global, mode: Mode, groups: &Groups) -> Result<(), LinkErr>
    ensures { Passes result (all_group_tests mode groups.now) }
{
    for (k, group) in groups.groups().iter().enumerate() {
        test_name(alloc, mode, groups.name_at(k), group.as_slice())?;
    }
    Ok(())
}
