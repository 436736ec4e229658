//! The scope of the modules that a load adds, and the global list after it.

ghost use Rattle.std.specs.Prelude.{◌≡◌, nat_eq, IfOk};
ghost use Rattle.symbol_scope.specs.Closure.{has};
ghost use Rattle.load_model.specs.Joined.{is_empty, global_after};
ghost use Rattle.load_model.specs.Linkage.{scope_with};

use fd_base::{Memory, Numbers, Seq};
use load_model::SymbolicProcess;
use std::alloc::Global;

fn has(numbers: &[u32], number: u32) -> bool
    ensures { result ≡ has nat_eq numbers.now number }
{
    numbers.iter().any(|n| number == *n)
}

/// The modules of the global list, and then the other ones of these members, each once.
pub fn scope_with(
    alloc: Global,
    process: &SymbolicProcess,
    members: &[u32],
) -> Result<Numbers, Memory>
    ensures { IfOk result (λ scope. scope ≡ scope_with process.now members.now) }
{
    let mut scope = Seq::from_slice(alloc, process.global.as_slice())?;
    for member in members {
        if !has(scope.as_slice(), *member) {
            scope.push(*member)?;
        }
    }
    Ok(scope)
}

fn is_empty(process: &SymbolicProcess) -> bool
    ensures { result ≡ is_empty process.now }
{
    process
        .modules
        .as_slice()
        .iter()
        .all(|place| place.is_none())
}

/// The global list after a load: the scope of the new modules, where that is asked for or no module is live, and else
/// the same one.
pub fn global_after(
    alloc: Global,
    process: &SymbolicProcess,
    asked: bool,
    scope: &[u32],
) -> Result<Numbers, Memory>
    ensures { IfOk result (λ global. global ≡ global_after process.now asked scope.now) }
{
    if asked || is_empty(process) {
        Seq::from_slice(alloc, scope)
    } else {
        Seq::from_slice(alloc, process.global.as_slice())
    }
}
