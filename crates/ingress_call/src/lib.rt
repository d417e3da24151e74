// Inbound: a native frame is judged to a verdict by value, the port's map is searched by the VLAN in it, and the General frame is written.
#![tactic(auto)]

ghost use Rattle.std.specs.Prelude.{◌+◌, ◌^◌, ◌≤◌, ◌<◌, ◌≡◌, length};
ghost use Rattle.numbers.specs.After.{on_area};
ghost use Rattle.frame.specs.Formats.{tagged_addresses, longest_frame};
ghost use Rattle.frame_copy.specs.Areas.{pasted};
ghost use Rattle.ingress.specs.Ingress.{given_good, hops_good, nicks_good, destination_agrees, header_of, fine_label, general_for, longer_by, judged, ingressed};
ghost use Rattle.ingress_call.specs.Meaning.{native_with, Judges, native_judged, outer_of, put_on};
ghost use Rattle.port_map.specs.declared.PortVlan.{PortVlan};

use frame::{
    ADDRESS_BYTES, ADDRESSES_BYTES, ALL_RBRIDGES, ETHERTYPE_BYTES, FINE_ETHERTYPE,
    FIXED_HEADER_BYTES, LABEL_PART, LEAST_CONTENT, LONGEST_FRAME, MULTICAST_BIT, SHORTEST_FRAME,
    Settings, TAG_BYTES, TAG_ETHERTYPE, TAGGED_ADDRESSES_BYTES, TRILL_ETHERTYPE,
    UNTAGGED_OUTER_BYTES,
};
use ingress::{Given, LONGER_BY, MOST_HOPS, MOST_MULTICAST};
use numbers::LAST_ADDRESS;
use numbers::refusals::Refusal;
use port_map::{CampusLabel, PRIORITY_BIT, PortVlan};

// What a native frame is judged: refused, or tagged with this VLAN and priority.
#[derive(Clone, Copy)]
pub struct Tagged {
    pub vlan: PortVlan,
    pub priority: u64,
}

// Refusal 1, of what the caller gives.
fn given_good(u: Given) -> bool
    ensures { result ≡ given_good u }
{
    numbers::is_individual(u.source)
        & ((u.destination <= LAST_ADDRESS) & (u.multicast <= MOST_MULTICAST))
}

// Refusal 8.
fn hops_good(u: Given) -> bool
    ensures { result ≡ hops_good u }
{
    (1 <= u.hops) & (u.hops <= MOST_HOPS)
}

// Refusal 9: the ranges alone.
fn nicks_good(u: Given) -> bool
    ensures { result ≡ nicks_good u }
{
    numbers::nickname_good(u.egress as u64) & numbers::nickname_good(u.ingress as u64)
}

// Refusal 12: M 1 goes with :40 alone, M 0 with no group address.
fn destination_agrees(u: Given) -> bool
    ensures { result ≡ destination_agrees u }
{
    if u.multicast == 1 {
        return u.destination == ALL_RBRIDGES;
    }
    numbers::is_individual(u.destination)
}

// The tag of a native frame: 3, 10, 6, 10, 6.
fn read_native(f: &[u8]) -> Result<Tagged, Refusal>
    ensures { Judges f.now (native_judged f.now) result }
{
    let n = f.len();
    if n < SHORTEST_FRAME {
        return Err(Refusal::FrameLengthBad);
    }
    if LONGEST_FRAME - LONGER_BY < n {
        return Err(Refusal::FrameLengthBad);
    }
    if !frame_fields::has_ethertype(f, ADDRESSES_BYTES, TAG_ETHERTYPE) {
        return Err(Refusal::LabelBad);
    }
    if n < TAGGED_ADDRESSES_BYTES {
        return Err(Refusal::CutShort);
    }
    let w = numbers::be2(f, UNTAGGED_OUTER_BYTES);
    let v = w % LABEL_PART;
    if !numbers::vlan_good(v) {
        return Err(Refusal::LabelBad);
    }
    if n - TAGGED_ADDRESSES_BYTES < LEAST_CONTENT {
        return Err(Refusal::CutShort);
    }
    Ok(Tagged {
        vlan: PortVlan(v as u16),
        priority: w / PRIORITY_BIT,
    })
}

// The verdict on a native frame and what the caller gives: 3, 6 and 10, 11, 8, 9, 12.
fn judge(u: Given, f: &[u8]) -> Result<Tagged, Refusal>
    ensures { Judges f.now (judged u f.now) result }
{
    let t = read_native(f)?;
    if !numbers::is_individual(numbers::be6(f, ADDRESS_BYTES)) {
        return Err(Refusal::SourceGroup);
    }
    if !hops_good(u) {
        return Err(Refusal::HopsSpent);
    }
    if !nicks_good(u) {
        return Err(Refusal::NicknameBad);
    }
    if !destination_agrees(u) {
        return Err(Refusal::MulticastDisagrees);
    }
    Ok(t)
}

// Where the parts of the General frame stand.
const HEADER_OFFSET: usize = UNTAGGED_OUTER_BYTES;

const INNER_OFFSET: usize = HEADER_OFFSET + FIXED_HEADER_BYTES;

const LABEL_OFFSET: usize = INNER_OFFSET + ADDRESSES_BYTES;

const SECOND_OFFSET: usize = LABEL_OFFSET + TAG_BYTES;

const CONTENT_OFFSET: usize = SECOND_OFFSET + TAG_BYTES;

// A number of two bytes.
const WORD_BYTES: usize = 2;

// Writes the outer addresses and 22F3.
fn write_outer(u: Given, out: &mut [u8])
    requires { 14 ≤ length out.old }
    ensures { out.new ≡ pasted out.old 0 (outer_of u) }
{
    frame_copy::put_address(u.destination, out, 0);
    frame_copy::put_address(u.source, out, ADDRESS_BYTES);
    frame_copy::put_number(TRILL_ETHERTYPE, ETHERTYPE_BYTES, out, ADDRESSES_BYTES);
}

// Writes the header, whose V, R and Op-Length are 0.
fn write_header(u: Given, out: &mut [u8])
    requires { 20 ≤ length out.old }
    ensures { out.new ≡ pasted out.old 14 (header_of u) }
{
    let first = u.multicast as u64 * MULTICAST_BIT + u.hops as u64;
    frame_copy::put_number(first, WORD_BYTES, out, HEADER_OFFSET);
    frame_copy::put_number(u.egress as u64, WORD_BYTES, out, HEADER_OFFSET + WORD_BYTES);
    frame_copy::put_number(
        u.ingress as u64,
        WORD_BYTES,
        out,
        HEADER_OFFSET + 2 * WORD_BYTES,
    );
}

// Writes the label, the priority into both its parts.
fn write_label(priority: u64, l: CampusLabel, out: &mut [u8])
    requires { (40 ≤ length out.old) × (priority < 2 ^ 3) }
    ensures { out.new ≡ pasted out.old 32 (fine_label priority l) }
{
    let top = priority * PRIORITY_BIT;
    let n = l.0 as u64;
    frame_copy::put_number(FINE_ETHERTYPE, ETHERTYPE_BYTES, out, LABEL_OFFSET);
    frame_copy::put_number(
        top + n / LABEL_PART,
        WORD_BYTES,
        out,
        LABEL_OFFSET + ETHERTYPE_BYTES,
    );
    frame_copy::put_number(FINE_ETHERTYPE, ETHERTYPE_BYTES, out, SECOND_OFFSET);
    frame_copy::put_number(
        top + n % LABEL_PART,
        WORD_BYTES,
        out,
        SECOND_OFFSET + ETHERTYPE_BYTES,
    );
}

// Writes the General frame.
fn write_general(u: Given, priority: u64, l: CampusLabel, f: &[u8], out: &mut [u8])
    requires { ((tagged_addresses ≤ length f.now) × (length f.now + longer_by ≤ longest_frame)) × ((length f.now + longer_by ≤ length out.old) × (priority < 2 ^ 3)) }
    ensures { (v : PortVlan) → out.new ≡ pasted out.old 0 (general_for u (native_with f.now v priority) l) }
{
    write_outer(u, out);
    write_header(u, out);
    frame_copy::copy_block(frame_copy::part(f, 0, ADDRESSES_BYTES), out, INNER_OFFSET);
    write_label(priority, l, out);
    let content = frame_fields::after(f, TAGGED_ADDRESSES_BYTES);
    frame_copy::copy_block(content, out, CONTENT_OFFSET);
}

// The General frame where there is room for it.
fn put_general(
    u: Given,
    vlan: PortVlan,
    priority: u64,
    l: CampusLabel,
    f: &[u8],
    out: &mut [u8],
) -> Result<u16, Refusal>
    requires { (tagged_addresses ≤ length f.now) × ((length f.now + longer_by ≤ longest_frame) × (priority < 2 ^ 3)) }
    ensures { on_area result out.new ≡ put_on (general_for u (native_with f.now vlan priority) l) out.old }
{
    let n = f.len() + LONGER_BY;
    if out.len() < n {
        return Err(Refusal::AreaShort);
    }
    write_general(u, priority, l, f, out);
    Ok(n as u16)
}

// The ingress call.
pub fn ingress(s: Settings, map: &[u8], u: Given, f: &[u8], out: &mut [u8]) -> Result<u16, Refusal>
    ensures { on_area result out.new ≡ ingressed s map.now u f.now out.old }
{
    if !frame_settings::settings_good(s) {
        return Err(Refusal::SettingsBad);
    }
    if !given_good(u) {
        return Err(Refusal::SettingsBad);
    }
    if !port_map_judge::map_good(map) {
        return Err(Refusal::MapBad);
    }
    let t = judge(u, f)?;
    match port_map_search::label_for(map, t.vlan) {
        None => Err(Refusal::NoPair),
        Some(l) => put_general(u, t.vlan, t.priority, l, f, out),
    }
}
