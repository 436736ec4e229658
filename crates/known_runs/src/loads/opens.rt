//! Opens of a loader that has a program (module 0) and its library (module 1): what they find, and that one which is
//! refused or only planned leaves nothing behind.

ghost use Rattle.std.specs.Prelude.{IfOk};
ghost use Rattle.load_state.specs.Consistent.{IsConsistent};
ghost use Rattle.load_state.specs.declared.plan.GroupPlan.{GroupPlan};
ghost use Rattle.mod_load.specs.parts.ReadyPlans.{MayCommit};

use super::{check_words, folder, load};
use crate::checks::{same, same_at};
use fd_base::Name;
use mod_load::{GroupPlan, LoadErr, LoadRefusal, Loader, MAX_MODULES};
use std::alloc::Global;
use std::process::Abort;
use std::test::Fail;

/// What an open comes to.
#[derive(Clone, Copy, Debug, PartialEq, Eq)]
enum Answer {
    /// The number of its module.
    Root(u32),
    /// The number of the new module that asks for a name without a definition.
    Unresolved(u32),
    /// Which of the new segments has no place.
    NoRoom(u32),
}

/// The name of the module, whether the global list is to gain the new ones, whether the plan is committed, and the answer.
type Open = (&'static [u8], bool, bool, Answer);

/// Opens in order, and what is there after them.
#[derive(Clone, Copy)]
struct Case {
    opens: &'static [Open],
    /// How many modules are live. Their numbers are those below.
    live: u32,
    global: &'static [u32],
    words: &'static [(u32, u32)],
}

/// A later group finds `bar` by the global list. It is the function `foo` of the first load, and keeps its slot at 0x3000;
/// the next function gets the next slot. Each module has its load map.
const BY_THE_GLOBAL_LIST: Case = Case {
    opens: &[
        (b"asks_bar", false, true, Answer::Root(2)),
        (b"baz", false, true, Answer::Root(3)),
    ],
    live: 4,
    global: &[0, 1],
    words: &[
        (0xa_000c, 0x3000),
        (0x3000, 0x4_0300),
        (0x3004, 0x5_0000),
        (0x7_000c, 0x3008),
        (0x3008, 0x6_0100),
        (0x300c, 0x7_0000),
        (0x14e0, 0x2_0000),
        (0x14e4, 0x9_0000),
        (0x1554, 0x6_0000),
    ],
};

/// `baz` is found only once its module is in the global list. An open of a live module brings that about too, and adds
/// no module.
const LIVE_ROOTS: Case = Case {
    opens: &[
        (b"asks_baz", false, true, Answer::Unresolved(2)),
        (b"baz", false, true, Answer::Root(2)),
        (b"l.so", true, true, Answer::Root(1)),
        (b"asks_baz", true, true, Answer::Unresolved(3)),
        (b"baz", true, true, Answer::Root(2)),
        (b"asks_baz", false, true, Answer::Root(3)),
    ],
    live: 4,
    global: &[0, 1, 2],
    words: &[
        (0x7_000c, 0x3008),
        (0xa_000c, 0x3008),
        (0x3010, 0),
        (0x1554, 0x9_0000),
    ],
};

/// What a load with `global` brings is found at once. The new module stands in the list behind those that were there.
const WITH_GLOBAL: Case = Case {
    opens: &[
        (b"baz", true, true, Answer::Root(2)),
        (b"asks_baz", true, true, Answer::Root(3)),
    ],
    live: 4,
    global: &[0, 1, 2, 3],
    words: &[(0xa_000c, 0x3008), (0x3008, 0x6_0100), (0x3010, 0)],
};

/// Neither a refused plan nor one that isn't committed leaves a module, a name, a slot or bytes.
const NOTHING_LEFT: Case = Case {
    opens: &[
        (b"no_room", true, true, Answer::NoRoom(1)),
        (b"asks_baz", false, true, Answer::Unresolved(2)),
        (b"baz", true, false, Answer::Root(2)),
        (b"asks_baz", false, true, Answer::Unresolved(2)),
    ],
    live: 2,
    global: &[0, 1],
    words: &[(0x3000, 0x4_0300), (0x3008, 0), (0x14e0, 0), (0x14e4, 0)],
};

/// So a good one after them gets the number, the place and the slot that those would have had.
const GOOD_AFTER_REFUSED: Case = Case {
    opens: &[
        (b"no_room", true, true, Answer::NoRoom(1)),
        (b"baz", true, false, Answer::Root(2)),
        (b"baz", false, true, Answer::Root(2)),
        (b"no_room", false, true, Answer::NoRoom(0)),
    ],
    live: 3,
    global: &[0, 1],
    words: &[
        (0x7_000c, 0x3008),
        (0x3008, 0x6_0100),
        (0x14e4, 0x6_0000),
        (0x1550, 0),
    ],
};

fn refusal_of(error: LoadErr) -> Result<Answer, Fail> {
    match error {
        LoadErr::Refused(LoadRefusal::Unresolved(m, _)) => Ok(Answer::Unresolved(m)),
        LoadErr::Refused(LoadRefusal::NoRoom(i)) => Ok(Answer::NoRoom(i)),
        _ => Err("another refusal")?,
    }
}

fn answer_of(alloc: Global, loader: &mut Loader, asked: &Open) -> Result<Answer, Fail>
    requires { IsConsistent loader.old.loaded }
    ensures { IsConsistent loader.new.loaded }
{
    let (name, global, committed, _) = *asked;
    let name = Name::new(alloc, name)?;
    match loader.plan_group(&mut folder(alloc)?, &name, false, global) {
        Ok(group) => {
            if committed {
                return Ok(Answer::Root(loader.commit(group)));
            }
            Ok(Answer::Root(group.root))
        }
        Err(error) => refusal_of(error),
    }
}

fn open_all(rt: &impl Abort, alloc: Global, loader: &mut Loader, opens: &[Open]) -> Result<(), Fail>
    requires { IsConsistent loader.old.loaded }
{
    for next in opens {
        let answer = answer_of(alloc, loader, next)?;
        same(rt, answer, next.3);
    }
    Ok(())
}

fn check_modules(rt: &impl Abort, loader: &Loader, live: u32, global: &[u32]) {
    same(rt, loader.process().global.as_slice(), global);
    for m in 0..MAX_MODULES {
        same_at(rt, m, loader.live(m), m < live);
    }
}

fn come_to(rt: &impl Abort, alloc: Global, case: &Case) -> Result<(), Fail> {
    let mut loader = load(alloc, b"asks", 0x8_0000)?;
    open_all(rt, alloc, &mut loader, case.opens)?;
    check_modules(rt, &loader, case.live, case.global);
    check_words(rt, &mut loader, case.words);
    Ok(())
}

#[test]
fn later_opens(rt: HostRuntime) -> Result<(), Fail> {
    for case in [
        BY_THE_GLOBAL_LIST,
        LIVE_ROOTS,
        WITH_GLOBAL,
        NOTHING_LEFT,
        GOOD_AFTER_REFUSED,
    ] {
        come_to(&rt, rt.alloc(), &case)?;
    }
    Ok(())
}

fn planned(alloc: Global, loader: &mut Loader, name: &[u8], global: bool) -> Result<GroupPlan, Fail>
    requires { IsConsistent loader.old.loaded }
    ensures consistent { IsConsistent loader.new.loaded }
    ensures ready { IfOk result (MayCommit loader.new) }
    ensures earlier { (plan : GroupPlan) → MayCommit loader.old plan → MayCommit loader.new plan }
{
    let name = Name::new(alloc, name)?;
    match loader.plan_group(&mut folder(alloc)?, &name, false, global) {
        Ok(group) => Ok(group),
        Err(_) => Err("refused")?,
    }
}

/// The root of a plan that isn't committed.
fn planned_root(alloc: Global, loader: &mut Loader, name: &[u8], global: bool) -> Result<u32, Fail>
    requires { IsConsistent loader.old.loaded }
    ensures consistent { IsConsistent loader.new.loaded }
    ensures earlier { (plan : GroupPlan) → MayCommit loader.old plan → MayCommit loader.new plan }
{
    Ok(planned(alloc, loader, name, global)?.root)
}

/// Of two plans the first is committed, and nothing of the second is there.
#[test]
fn first_of_two_plans(rt: HostRuntime) -> Result<(), Fail> {
    let mut loader = load(rt.alloc(), b"asks", 0x8_0000)?;
    let first = planned(rt.alloc(), &mut loader, b"asks_bar", false)?;
    let root = planned_root(rt.alloc(), &mut loader, b"baz", true)?;
    same(&rt, [first.root, root], [2, 2]);
    same(&rt, loader.commit(first), 2);
    check_modules(&rt, &loader, 3, &[0, 1]);
    check_words(
        &rt,
        &mut loader,
        &[(0xa_000c, 0x3000), (0x3008, 0), (0x14e4, 0x9_0000)],
    );
    Ok(())
}
