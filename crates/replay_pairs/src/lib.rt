// For the program `replay`: a map of whole pairs out of bytes, as an array, and reading and ingress with its first pairs as a slice.
#![tactic(auto)]

ghost use Rattle.std.specs.Prelude.{◌+◌, ◌≤◌, ◌≡◌, length, take};
ghost use Rattle.numbers.specs.After.{on_area, on_both};
ghost use Rattle.port_map_pairs.specs.Pairs.{map_bytes_of};
ghost use Rattle.receive.specs.Receive.{port_received};
ghost use Rattle.ingress.specs.Ingress.{ingressed};

use frame::Settings;
use ingress::Given;
use numbers::refusals::Refusal;
use port_map::{CampusLabel, PAIR_BYTES, PortVlan};
use port_map_pairs::MapPair;
use receive::ReadAnswer;

// As many pairs as the bytes of a call have room for.
pub const MOST_PAIRS: usize = 164;

fn pair_at(b: &[u8], at: usize) -> MapPair
    requires { at + 6 ≤ length b.now }
{
    let v = port_map_search::vlan_at(b, at);
    let l = port_map_search::label_at(b, at);
    MapPair { vlan: v, label: l }
}

// The pairs of a map, and pairs of zeros after them.
pub fn pairs_in(b: &[u8]) -> [MapPair; 164] {
    let v = PortVlan(0);
    let l = CampusLabel(0);
    let p = MapPair { vlan: v, label: l };
    let mut pairs = [p; 164];
    for i in 0..MOST_PAIRS.min(b.len() / PAIR_BYTES) {
        pairs[i] = pair_at(b, i * PAIR_BYTES);
    }
    pairs
}

// Reading with the first n of these pairs.
pub fn read_pairs(
    s: Settings,
    pairs: [MapPair; 164],
    n: usize,
    f: &[u8],
    table: &mut [u8],
    out: &mut [u8],
) -> Result<ReadAnswer, Refusal>
    requires { n ≤ 164 }
    ensures { on_both result table.new out.new ≡ port_received s (map_bytes_of (take n pairs)) f.now table.old out.old }
{
    receive_pairs::receive_mapped(s, &pairs[..n], f, table, out)
}

// Ingress with the first n of these pairs.
pub fn take_pairs(
    s: Settings,
    pairs: [MapPair; 164],
    n: usize,
    u: Given,
    f: &[u8],
    out: &mut [u8],
) -> Result<u16, Refusal>
    requires { n ≤ 164 }
    ensures { on_area result out.new ≡ ingressed s (map_bytes_of (take n pairs)) u f.now out.old }
{
    ingress_pairs::ingress_mapped(s, &pairs[..n], u, f, out)
}
