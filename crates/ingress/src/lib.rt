// Inbound through a port's map (2026-01). The definitions are in specs/.
#![tactic(auto)]

ghost use Rattle.ingress.specs.Cases.{MapCases};
ghost use Rattle.ingress.specs.Claims.{IngressRefusal, MapRoundTrip};

// What the caller gives of the General frame, as it arrives: the outer addresses, M, hop count and nicknames.
#[derive(Clone, Copy)]
pub struct Given {
    pub destination: u64,
    pub source: u64,
    pub multicast: u32,
    pub hops: u32,
    pub egress: u32,
    pub ingress: u32,
}

// The greatest M, and the greatest hop count.
pub const MOST_MULTICAST: u32 = 1;

pub const MOST_HOPS: u32 = 63;

// By how much the result is longer than the native frame.
pub const LONGER_BY: usize = 24;

// What holds of the definition of ingress.
pub fn claims()
    ensures { MapCases × IngressRefusal × MapRoundTrip }
{}
