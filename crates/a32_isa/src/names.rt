//! The words of the assembler's language, by the numbers that stand for them in instructions.

ghost use Rattle.std.specs.Prelude.{◌≡◌, ◌<◌};
ghost use Rattle.a32_isa.specs.Names as spec;

#[tactic(auto, unfolding(crate::specs::Names::register_name))]
pub fn register_name(register: u8) -> &'static str
    requires { register < 16 }
    ensures { result.now ≡ spec.register_name register }
{
    match register {
        0 => "r0",
        1 => "r1",
        2 => "r2",
        3 => "r3",
        4 => "r4",
        5 => "r5",
        6 => "r6",
        7 => "r7",
        8 => "r8",
        9 => "r9",
        10 => "r10",
        11 => "r11",
        12 => "r12",
        13 => "sp",
        14 => "lr",
        15 => "pc",
        _ => unreachable!(),
    }
}

/// The name of a condition, which is empty for `al`.
#[tactic(auto, unfolding(crate::specs::Names::condition_name))]
pub fn condition_name(cond: u8) -> &'static str
    requires { cond < 15 }
    ensures { result.now ≡ spec.condition_name cond }
{
    match cond {
        0 => "eq",
        1 => "ne",
        2 => "cs",
        3 => "cc",
        4 => "mi",
        5 => "pl",
        6 => "vs",
        7 => "vc",
        8 => "hi",
        9 => "ls",
        10 => "ge",
        11 => "lt",
        12 => "gt",
        13 => "le",
        14 => "",
        _ => unreachable!(),
    }
}

#[tactic(auto, unfolding(crate::specs::Names::data_name))]
pub fn data_name(op: u8) -> &'static str
    requires { op < 16 }
    ensures { result.now ≡ spec.data_name op }
{
    match op {
        0 => "and",
        1 => "eor",
        2 => "sub",
        3 => "rsb",
        4 => "add",
        5 => "adc",
        6 => "sbc",
        7 => "rsc",
        8 => "tst",
        9 => "teq",
        10 => "cmp",
        11 => "cmn",
        12 => "orr",
        13 => "mov",
        14 => "bic",
        15 => "mvn",
        _ => unreachable!(),
    }
}

#[tactic(auto, unfolding(crate::specs::Names::long_name))]
pub fn long_name(kind: u8) -> &'static str
    requires { kind < 4 }
    ensures { result.now ≡ spec.long_name kind }
{
    match kind {
        0 => "umull",
        1 => "umlal",
        2 => "smull",
        3 => "smlal",
        _ => unreachable!(),
    }
}

#[tactic(auto, unfolding(crate::specs::Names::half_name))]
pub fn half_name(kind: u8) -> &'static str
    requires { kind < 4 }
    ensures { result.now ≡ spec.half_name kind }
{
    match kind {
        0 => "strh",
        1 => "ldrh",
        2 => "ldrsb",
        3 => "ldrsh",
        _ => unreachable!(),
    }
}

#[tactic(auto, unfolding(crate::specs::Names::shift_name))]
pub fn shift_name(kind: u8) -> &'static str
    requires { kind < 4 }
    ensures { result.now ≡ spec.shift_name kind }
{
    match kind {
        0 => "lsl",
        1 => "lsr",
        2 => "asr",
        3 => "ror",
        _ => unreachable!(),
    }
}
