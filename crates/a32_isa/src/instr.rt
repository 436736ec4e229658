//! Instructions by the fields of their words. Registers are numbered 0 to 15. Where a field has fewer values
//! than its type, `decode` gives only those that a row of the instruction table has.

/// An instruction.
#[derive(Clone, Copy)]
pub struct Instr {
    /// When it is obeyed, from 0 on: eq ne cs cc mi pl vs vc hi ls ge lt gt le al.
    pub cond: u8,
    /// What it does.
    pub op: Op,
}

/// What an instruction does.
#[derive(Clone, Copy)]
pub enum Op {
    /// A data operation, from 0 on: and eor sub rsb add adc sbc rsc tst teq cmp cmn orr mov bic mvn. Of
    /// register `n` and the operand `arg` into register `d`; with `s` it sets the flags.
    Data {
        op: u8,
        s: bool,
        n: u8,
        d: u8,
        arg: Arg,
    },
    /// `m` times `s2` into `d`.
    Mul {
        s: bool,
        d: u8,
        s2: u8,
        m: u8,
    },
    /// `m` times `s2` plus `n` into `d`.
    Mla {
        s: bool,
        d: u8,
        n: u8,
        s2: u8,
        m: u8,
    },
    /// `m` times `s2` of 64 bits into `hi` and `lo`. The kinds are 0 umull, 1 umlal, 2 smull, 3 smlal.
    Long {
        kind: u8,
        s: bool,
        hi: u8,
        lo: u8,
        s2: u8,
        m: u8,
    },
    /// How many zeros stand above the highest one of `m`, into `d`.
    Clz {
        d: u8,
        m: u8,
    },
    /// An immediate into `d`.
    Movw {
        d: u8,
        imm16: u16,
    },
    /// An immediate into the upper half of `d`.
    Movt {
        d: u8,
        imm16: u16,
    },
    /// Nothing.
    Nop,
    /// Loads `d` from or stores it to a word, or with `byte` a byte, at `n` plus (`u`) or minus the offset;
    /// without `p` at `n` itself, which is moved by the offset afterwards. With `w` the address is written
    /// back to `n`.
    Mem {
        load: bool,
        byte: bool,
        p: bool,
        u: bool,
        w: bool,
        n: u8,
        d: u8,
        off: MemOff,
    },
    /// The same with a halfword or a signed byte. The kinds are 0 strh, 1 ldrh, 2 ldrsb, 3 ldrsh.
    Half {
        kind: u8,
        p: bool,
        u: bool,
        w: bool,
        n: u8,
        d: u8,
        off: HalfOff,
    },
    /// Loads or stores each register whose bit is set in `list`, at rising words from `n` up (`u`) or down,
    /// with `p` from the next word on. With `w` the address behind them is written back to `n`.
    Multi {
        load: bool,
        p: bool,
        u: bool,
        w: bool,
        n: u8,
        list: u16,
    },
    /// Goes to its address plus 8 and 4 times the field, a signed number of 24 bits; with `link` lr gets the
    /// address of the next instruction.
    Branch {
        link: bool,
        imm24: u32,
    },
    /// Goes to the address in `m`.
    Bx {
        m: u8,
    },
    /// The same, and lr gets the address of the next instruction.
    Blx {
        m: u8,
    },
    /// Calls the supervisor.
    Svc {
        imm24: u32,
    },
}

/// The second operand of a data operation. The kinds of shift are 0 lsl, 1 lsr, 2 asr, 3 ror.
#[derive(Clone, Copy)]
pub enum Arg {
    /// A byte, rotated right by twice `rot`.
    Imm { rot: u8, imm: u8 },
    /// A register shifted by a number of bits, where 0 has a meaning of its own for each kind but lsl.
    ByImm { imm: u8, kind: u8, m: u8 },
    /// A register shifted by the low byte of the register `s2`.
    ByReg { s2: u8, kind: u8, m: u8 },
}

/// The offset of a load or store of a word or byte.
#[derive(Clone, Copy)]
pub enum MemOff {
    /// In bytes, below 4,096.
    Imm(u16),
    /// A register shifted by a number of bits, as in `Arg`.
    Reg { imm: u8, kind: u8, m: u8 },
}

/// The offset of a load or store of a halfword or a signed byte.
#[derive(Clone, Copy)]
pub enum HalfOff {
    /// In bytes.
    Imm(u8),
    /// A register.
    Reg(u8),
}
