// The watch of a sending port: when the link looks shared, compaction stops for a time (2026-06). The definitions are in specs/.
#![tactic(auto)]

ghost use Rattle.watch.specs.Claims.{StopNeverShortened, StopRunsOut, SendingWhileStopped, RefusedWatchStays, WatchCases};

// "seconds left and the last clock reading", changed where it lies.
#[repr(C)]
#[derive(Clone, Copy)]
pub struct Watch {
    pub left: u32,
    pub reading: u32,
}

// The kinds of events, as numbers of the boundary.
pub const NATIVE_FRAME: u32 = 0;

pub const UNEXPECTED_HELLO: u32 = 1;

pub const BRIDGE_BPDU: u32 = 2;

pub const LLDP_NOTICE: u32 = 3;

// "never under ten seconds".
pub const LEAST_STOP_SECONDS: u32 = 10;

// A difference of readings from which on the clock is taken as gone back.
pub const CLOCK_GONE_BACK: u32 = 0x8000_0000;

// What holds of the watch's definitions.
pub fn claims()
    ensures { StopNeverShortened × StopRunsOut × SendingWhileStopped × RefusedWatchStays × WatchCases }
{}
