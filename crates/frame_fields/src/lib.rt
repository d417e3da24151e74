// The fields of a frame, one by one: the destination in front, Ethertypes, the header's fields, and how many bytes a header, a
// label and the outer part take.
#![tactic(auto)]

ghost use Rattle.std.specs.Prelude.{◌+◌, ◌-◌, ◌/◌, ◌%◌, ◌^◌, ◌<◌, ◌≤◌, ◌≡◌, length, drop};
ghost use Rattle.numbers.specs.Bytes.{starts_with};
ghost use Rattle.numbers.specs.Ranges.{vlan_good};
ghost use Rattle.frame.specs.Formats.{outer_length};
ghost use Rattle.frame.specs.Header.{version_of, first_reserved, second_reserved, multicast_of, option_length, hop_count, egress_of, ingress_of, fixed_bytes, header_bytes, agrees, header_length};
ghost use Rattle.frame.specs.Labels.{tag_bytes, low12, label_length};
ghost use Rattle.frame_fields.specs.Meaning.{front_as, front_at};

use frame::{
    ADDRESSES_BYTES, ALL_RBRIDGES, EGRESS_OFFSET, ETHERTYPE_BYTES, FINE_BYTES, FINE_ETHERTYPE,
    FIRST_RESERVED_BIT, FIXED_HEADER_BYTES, HOP_COUNT_VALUES, INGRESS_OFFSET, LABEL_PART,
    MULTICAST_BIT, MULTICAST_VALUES, OPTION_BYTES, OPTION_LENGTH_BIT, OPTION_LENGTH_VALUES,
    RESERVED_VALUES, SECOND_RESERVED_BIT, TAG_BYTES, TAG_ETHERTYPE, TAGGED_ADDRESSES_BYTES,
    TAGGED_OUTER_BYTES, TRILL_ETHERTYPE, UNTAGGED_OUTER_BYTES, VERSION_BIT, VERSION_VALUES,
};
use numbers::refusals::Refusal;

// What the destination in front means: a General frame to this port or to all RBridges, an address that is refused, or the inner
// destination of a Compact frame.
#[derive(Clone, Copy)]
pub enum Front {
    Unicast,
    Multicast,
    Refused,
    Inner,
}

// What the destination in front means for a port.
#[tactic(auto, using(numbers::proofs::Steps::steps), unfolding(crate::specs::Meaning::front_at, frame::specs::Front::front_refused))]
pub fn front_of(port: u64, a: u64) -> Front
    ensures { front_as result ≡ front_at port a }
{
    if a == port {
        return Front::Unicast;
    }
    if a == ALL_RBRIDGES {
        return Front::Multicast;
    }
    if frame_settings::is_reserved(a) {
        return Front::Refused;
    }
    Front::Inner
}

// Whether the two bytes at k are this Ethertype.
pub fn has_ethertype(l: &[u8], k: usize, t: u64) -> bool
    requires { k + 2 ≤ length l.now }
    ensures { result ≡ starts_with (t / 256) (t % 256) (drop k l.now) }
{
    (numbers::wide(l[k]) == t / 0x100) & (numbers::wide(l[k + 1]) == t % 0x100)
}

// The fields of the header at k.
fn version(l: &[u8], k: usize) -> u64
    requires { k + 2 ≤ length l.now }
    ensures { result ≡ version_of (drop k l.now) }
{
    numbers::be2(l, k) / VERSION_BIT % VERSION_VALUES
}

// The two R bits.
pub fn first_reserved(l: &[u8], k: usize) -> u64
    requires { k + 2 ≤ length l.now }
    ensures { result ≡ first_reserved (drop k l.now) }
{
    numbers::be2(l, k) / FIRST_RESERVED_BIT % RESERVED_VALUES
}

pub fn second_reserved(l: &[u8], k: usize) -> u64
    requires { k + 2 ≤ length l.now }
    ensures { result ≡ second_reserved (drop k l.now) }
{
    numbers::be2(l, k) / SECOND_RESERVED_BIT % RESERVED_VALUES
}

pub fn multicast(l: &[u8], k: usize) -> u64
    requires { k + 2 ≤ length l.now }
    ensures { result ≡ multicast_of (drop k l.now) }
{
    numbers::be2(l, k) / MULTICAST_BIT % MULTICAST_VALUES
}

fn option_length(l: &[u8], k: usize) -> u64
    requires { k + 2 ≤ length l.now }
    ensures { (result ≡ option_length (drop k l.now)) × (result < 2 ^ 5) }
{
    numbers::be2(l, k) / OPTION_LENGTH_BIT % OPTION_LENGTH_VALUES
}

pub fn hop_count(l: &[u8], k: usize) -> u64
    requires { k + 2 ≤ length l.now }
    ensures { result ≡ hop_count (drop k l.now) }
{
    numbers::be2(l, k) % HOP_COUNT_VALUES
}

pub fn egress(l: &[u8], k: usize) -> u64
    requires { k + fixed_bytes ≤ length l.now }
    ensures { result ≡ egress_of (drop k l.now) }
{
    numbers::be2(l, k + EGRESS_OFFSET)
}

pub fn ingress(l: &[u8], k: usize) -> u64
    requires { k + fixed_bytes ≤ length l.now }
    ensures { (result ≡ ingress_of (drop k l.now)) × (result < 2 ^ 16) }
{
    numbers::be2(l, k + INGRESS_OFFSET)
}

// The bytes that a header says it takes.
fn header_bytes(l: &[u8]) -> usize
    requires { fixed_bytes ≤ length l.now }
    ensures { result ≡ header_bytes l.now }
{
    FIXED_HEADER_BYTES + OPTION_BYTES * (option_length(l, 0) as usize)
}

// Refusal 12: whether M and the destination in front agree.
fn multicast_agrees(d: Front, l: &[u8]) -> bool
    requires { fixed_bytes ≤ length l.now }
    ensures { result ≡ agrees (front_as d) (multicast_of l.now) }
{
    let m = multicast(l, 0);
    match d {
        Front::Unicast => m == 0,
        Front::Multicast => m == 1,
        Front::Refused => true,
        Front::Inner => true,
    }
}

// The bytes that a header with its options takes.
#[tactic(auto, using(numbers::proofs::Steps::steps), unfolding(frame::specs::Header::header_length))]
pub fn header_length(d: Front, l: &[u8]) -> Result<usize, Refusal>
    ensures { result ≡ header_length (front_as d) l.now }
{
    if l.len() < FIXED_HEADER_BYTES {
        return Err(Refusal::CutShort);
    }
    if version(l, 0) != 0 {
        return Err(Refusal::VersionBad);
    }
    if !multicast_agrees(d, l) {
        return Err(Refusal::MulticastDisagrees);
    }
    let n = header_bytes(l);
    if l.len() < n {
        return Err(Refusal::CutShort);
    }
    Ok(n)
}

// The 12 bits of a label in the two bytes at k.
pub fn label_part(l: &[u8], k: usize) -> u64
    requires { k + 2 ≤ length l.now }
    ensures { (result ≡ low12 k l.now) × (result < 2 ^ 12) }
{
    numbers::be2(l, k) % LABEL_PART
}

// Whether the VLAN number of a tag is allowed.
fn tag_good(l: &[u8]) -> bool
    requires { tag_bytes ≤ length l.now }
    ensures { result ≡ vlan_good (low12 2 l.now) }
{
    numbers::vlan_good(label_part(l, ETHERTYPE_BYTES))
}

// The second Ethertype of a fine-grained label ends here.
const SECOND_ETHERTYPE_END: usize = TAG_BYTES + ETHERTYPE_BYTES;

// The bytes that a label takes.
#[tactic(auto, using(numbers::proofs::Steps::steps), unfolding(frame::specs::Labels::label_length))]
pub fn label_length(l: &[u8]) -> Result<usize, Refusal>
    ensures { result ≡ label_length l.now }
{
    if l.len() < ETHERTYPE_BYTES {
        return Err(Refusal::CutShort);
    }
    if has_ethertype(l, 0, TAG_ETHERTYPE) {
        if l.len() < TAG_BYTES {
            return Err(Refusal::CutShort);
        }
        if !tag_good(l) {
            return Err(Refusal::LabelBad);
        }
        return Ok(TAG_BYTES);
    }
    if !has_ethertype(l, 0, FINE_ETHERTYPE) {
        return Err(Refusal::LabelBad);
    }
    if l.len() < TAG_BYTES {
        return Err(Refusal::CutShort);
    }
    if l.len() < SECOND_ETHERTYPE_END {
        return Err(Refusal::CutShort);
    }
    if !has_ethertype(l, TAG_BYTES, FINE_ETHERTYPE) {
        return Err(Refusal::LabelBad);
    }
    if l.len() < FINE_BYTES {
        return Err(Refusal::CutShort);
    }
    Ok(FINE_BYTES)
}

// The bytes that the outer addresses, the optional tag and 22F3 take.
#[tactic(auto, using(numbers::proofs::Steps::steps), unfolding(frame::specs::Formats::outer_length))]
pub fn outer_length(l: &[u8]) -> Result<usize, Refusal>
    ensures { result ≡ outer_length l.now }
{
    if l.len() < UNTAGGED_OUTER_BYTES {
        return Err(Refusal::CutShort);
    }
    if has_ethertype(l, ADDRESSES_BYTES, TAG_ETHERTYPE) {
        if l.len() < TAGGED_ADDRESSES_BYTES {
            return Err(Refusal::CutShort);
        }
        if l.len() < TAGGED_OUTER_BYTES {
            return Err(Refusal::CutShort);
        }
        if !has_ethertype(l, TAGGED_ADDRESSES_BYTES, TRILL_ETHERTYPE) {
            return Err(Refusal::NotTrill);
        }
        return Ok(TAGGED_OUTER_BYTES);
    }
    if !has_ethertype(l, ADDRESSES_BYTES, TRILL_ETHERTYPE) {
        return Err(Refusal::NotTrill);
    }
    Ok(UNTAGGED_OUTER_BYTES)
}

// The part of a frame from an offset to its end.
pub fn after<'a>(l: &'a [u8], k: usize) -> &'a [u8]
    requires { k ≤ length l.now }
    ensures { (result.now ≡ drop k l.now) × (length result.now ≡ length l.now - k) }
{
    &l[k..]
}
