//! The services that a program asks for by `svc`.

use crate::event::Stop;
use fd_base::Bytes;

/// The process ends, with the value in r0.
pub const EXIT: u32 = 0;
/// Bytes are put out: r0 is their address, r1 how many they are.
pub const OUT: u32 = 1;
/// The thread ends, with the value in r0.
pub const DONE: u32 = 6;
/// The thread gives up its turn.
pub const TURN: u32 = 7;
/// r0 gets the code of the thread's last refused service, 0 if none was refused.
pub const LAST_ERROR: u32 = 8;

/// The most bytes that one service puts out.
pub const MAX_OUT: u32 = 4_096;
/// The code of the refusal where more are asked for.
pub const OUT_TOO_LONG: u32 = 51;
/// What r0 gets where a service is refused.
pub const REFUSED: u32 = 0xffff_ffff;

/// What a service comes to for its thread.
#[derive(Drop)]
pub enum Served {
    /// It goes on.
    Went,
    /// It goes on, and has put out these bytes.
    Wrote(Bytes),
    /// It gives up its turn.
    Yielded,
    /// It ends.
    Finished(u32),
    /// The process ends.
    Exited(u32),
    /// The run stops before the service.
    Stopped(Stop),
}
