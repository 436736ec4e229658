//! The fixed parts of a process's memory.

ghost use Rattle.std.specs.Prelude.{◌≡◌, ◌<◌};
ghost use Rattle.symbol_scope.specs.declared.tables.TheConstants.{MAX_MODULES};
ghost use Rattle.load_model.specs.Image.{load_map_at};

/// The address of the code that binds a slot at its first call, and its words: a call of the resolver
/// (`svc 240`), `ldr r9, [r12, #4]`, `ldr pc, [r12]`.
pub const RESOLVER: u32 = 0x1000;
/// The words from `RESOLVER` on.
pub const RESOLVER_WORDS: [u32; 3] = [0xef00_00f0, 0xe59c_9004, 0xe59c_f000];
/// Where a thread ends that returns from its first function, by `svc 6`.
pub const THREAD_END: u32 = 0x100c;
/// Where the process ends when its program returns, by `svc 0`.
pub const PROCESS_END: u32 = 0x1010;
/// The words from `THREAD_END` on.
pub const END_WORDS: [u32; 2] = [0xef00_0006, 0xef00_0000];
/// The address behind `END_WORDS`.
pub const STUBS_END: u32 = 0x1014;
/// The address of the load map of module 0 of the first process.
pub const LOAD_MAPS: u32 = 0x1400;
/// How many bytes there are for each load map.
pub const LOAD_MAP_SIZE: u32 = 112;
/// How many bytes there are for the load maps of each process.
pub const LOAD_MAPS_SIZE: u32 = 0x1c00;

/// The address of the load map of a module of the first process.
pub fn load_map_at(number: u32) -> u32
    requires { number < MAX_MODULES }
    ensures { result ≡ load_map_at number }
{
    LOAD_MAPS + LOAD_MAP_SIZE * number
}
