//! The words of an entry of the PLT.

ghost use Rattle.std.specs.Prelude.{◌≡◌};
ghost use Rattle.plt_code.specs.Words as spec;

/// `ldr r12, [pc, #8]`: the word behind the four of the call, L1.
pub(crate) const LDR_R12_L1: u32 = 0xe59f_c008;
/// `add r12, r12, r9`.
pub(crate) const ADD_R12_R9: u32 = 0xe08c_c009;
/// `ldr r9, [r12, #4]`.
pub(crate) const LDR_R9_R12: u32 = 0xe59c_9004;
/// `ldr pc, [r12]`.
pub(crate) const LDR_PC_R12: u32 = 0xe59c_f000;
/// `ldr r12, [pc, #-12]`: the word before it, L2.
pub(crate) const LDR_R12_L2: u32 = 0xe51f_c00c;
/// `push {r12}`.
pub(crate) const PUSH_R12: u32 = 0xe92d_1000;
/// `ldr r12, [r9, #4]`.
pub(crate) const LDR_R12_R9: u32 = 0xe599_c004;
/// `ldr pc, [r9]`.
pub(crate) const LDR_PC_R9: u32 = 0xe599_f000;

/// The ten words of an entry. `l1` is the offset of the slot's site from the GOT, and `l2` the byte offset of
/// the slot's relocation in DT_JMPREL, 8 for each slot before it.
pub fn entry_words(l1: u32, l2: u32) -> [u32; 10]
    ensures { result ≡ spec.entry_words l1 l2 }
{
    [
        LDR_R12_L1, ADD_R12_R9, LDR_R9_R12, LDR_PC_R12, l1, l2, LDR_R12_L2, PUSH_R12, LDR_R12_R9,
        LDR_PC_R9,
    ]
}
