// Expansion: a Compact frame as a General one.
#![tactic(auto)]

ghost use Rattle.std.specs.Prelude.{◌+◌, ◌≤◌, ◌≡◌, length};
ghost use Rattle.numbers.specs.After.{on_area};
ghost use Rattle.frame.specs.Front.{addresses_bytes};
ghost use Rattle.frame.specs.Formats.{tagged_addresses, longest_frame, compact};
ghost use Rattle.frame_parse.specs.Meaning.{fields_in, PartsOf, Reads};
ghost use Rattle.frame_copy.specs.Areas.{pasted};
ghost use Rattle.convert.specs.Expansion.{tag_good, outer_bytes, outer_tag, general_tail, expanded};
ghost use Rattle.convert_compact.specs.Meaning.{compact_length, put_on};
ghost use Rattle.convert_expand.specs.Meaning.{outer_as, outer_good, lengths_good, compact_fields, destination_of, outer_front, general_to};

use frame::{
    ADDRESS_BYTES, ADDRESSES_BYTES, ALL_RBRIDGES, ETHERTYPE_BYTES, FIXED_HEADER_BYTES,
    LONGEST_FRAME, SHORTEST_FRAME, Settings, TAG_BYTES, TAG_ETHERTYPE, TAGGED_ADDRESSES_BYTES,
    TRILL_ETHERTYPE,
};
use frame_fields::Front;
use frame_parse::Parts;
use numbers::refusals::Refusal;

// The outer part that the caller gives, as it arrives: the outer source; whether there is a tag, whose number is `tag`.
#[derive(Clone, Copy)]
pub struct Outer {
    pub source: u64,
    pub tagged: u32,
    pub tag: u32,
}

const UNTAGGED: u32 = 0;

const TAGGED: u32 = 1;

// The number of an outer tag: its length and its offset.
const TAG_NUMBER_BYTES: usize = TAG_BYTES - ETHERTYPE_BYTES;

const TAG_NUMBER_OFFSET: usize = ADDRESSES_BYTES + ETHERTYPE_BYTES;

fn tag_good(u: Outer) -> bool
    ensures { result ≡ tag_good (outer_as u) }
{
    (u.tagged == UNTAGGED) | ((u.tagged == TAGGED) & numbers::vlan_good(u.tag as u64))
}

// Refusal 1: settings, outer source and tag.
fn outer_good(s: Settings, u: Outer) -> bool
    ensures { result ≡ outer_good s (outer_as u) }
{
    frame_settings::settings_good(s) & (numbers::is_individual(u.source) & tag_good(u))
}

// The bytes of the outer addresses and the tag.
fn outer_bytes(u: Outer) -> usize
    ensures { (result ≡ outer_bytes (outer_as u)) × (result ≤ tagged_addresses) }
{
    if u.tagged == UNTAGGED {
        return ADDRESSES_BYTES;
    }
    TAGGED_ADDRESSES_BYTES
}

// Refusal 3: the frame's length, and the result's.
fn lengths_good(n: usize, more: usize) -> bool
    requires { more ≤ tagged_addresses }
    ensures { result ≡ lengths_good n more }
{
    (SHORTEST_FRAME <= n) & (n <= LONGEST_FRAME - more)
}

// As `frame_parse::read_compact`. With one caller each, both are a part of their callers' code.
fn compact_parts(f: &[u8]) -> Result<Parts, Refusal>
    requires { (addresses_bytes ≤ length f.now) × (length f.now ≤ longest_frame) }
    ensures { Reads f.now (compact f.now) result }
{
    let k = frame_fields::label_length(frame_fields::after(f, ADDRESSES_BYTES))?;
    frame_parse::compact_after_label(f, k)
}

// The parts of a Compact frame; one that means General in front is 18. Compact on or off doesn't bear on it.
fn compact_fields(s: Settings, u: Outer, f: &[u8]) -> Result<Parts, Refusal>
    ensures { Reads f.now (compact_fields s (outer_as u) f.now) result }
{
    if !outer_good(s, u) {
        return Err(Refusal::SettingsBad);
    }
    if !lengths_good(f.len(), outer_bytes(u)) {
        return Err(Refusal::FrameLengthBad);
    }
    let d = frame_fields::front_of(s.port, numbers::be6(f, 0));
    match d {
        Front::Unicast => Err(Refusal::NotCompact),
        Front::Multicast => Err(Refusal::NotCompact),
        Front::Refused => Err(Refusal::NotForPort),
        Front::Inner => compact_parts(f),
    }
}

// The outer destination: the far port, or :40 where M is 1.
fn destination(s: Settings, f: &[u8], p: Parts) -> u64
    requires { PartsOf f.now p }
    ensures { result ≡ destination_of s (fields_in f.now p) }
{
    if frame_fields::multicast(f, p.header_offset) == 1 {
        return ALL_RBRIDGES;
    }
    s.port
}

// Writes the tag, with priority and DEI 0, where there is one.
fn write_tag(u: Outer, out: &mut [u8])
    requires { outer_bytes (outer_as u) ≤ length out.old }
    ensures { out.new ≡ pasted out.old addresses_bytes (outer_tag (outer_as u)) }
{
    if u.tagged == UNTAGGED {
        return;
    }
    frame_copy::put_number(TAG_ETHERTYPE, ETHERTYPE_BYTES, out, ADDRESSES_BYTES);
    frame_copy::put_number(u.tag as u64, TAG_NUMBER_BYTES, out, TAG_NUMBER_OFFSET);
}

// Writes the outer addresses and the tag.
fn write_outer(dst: u64, u: Outer, out: &mut [u8])
    requires { outer_bytes (outer_as u) ≤ length out.old }
    ensures { out.new ≡ pasted out.old 0 (outer_front dst (outer_as u)) }
{
    frame_copy::put_address(dst, out, 0);
    frame_copy::put_address(u.source, out, ADDRESS_BYTES);
    write_tag(u, out);
}

// Writes what is after them: 22F3, header, inner addresses and label, content.
fn write_tail(f: &[u8], p: Parts, out: &mut [u8], at: usize)
    requires { PartsOf f.now p × (at + compact_length (length f.now) p ≤ length out.old) }
    ensures { out.new ≡ pasted out.old at (general_tail (fields_in f.now p)) }
{
    let n = ADDRESSES_BYTES + p.label_length;
    let k = p.header_length;
    let h = at + ETHERTYPE_BYTES;
    frame_copy::put_number(TRILL_ETHERTYPE, ETHERTYPE_BYTES, out, at);
    frame_copy::copy_part(f, p.header_offset, k, FIXED_HEADER_BYTES, out, h);
    frame_copy::copy_part(f, p.dst_offset, n, TAGGED_ADDRESSES_BYTES, out, h + k);
    frame_copy::copy_block(frame_fields::after(f, p.content_offset), out, h + k + n);
}

// Writes the General frame to an outer destination where there is room for it.
fn put_general(dst: u64, u: Outer, f: &[u8], p: Parts, out: &mut [u8]) -> Result<u16, Refusal>
    requires { PartsOf f.now p × ((compact_length (length f.now) p ≡ length f.now) × (length f.now + outer_bytes (outer_as u) ≤ longest_frame)) }
    ensures { on_area result out.new ≡ put_on (general_to dst (outer_as u) (fields_in f.now p)) out.old }
{
    let o = outer_bytes(u);
    let n = f.len() + o;
    if out.len() < n {
        return Err(Refusal::AreaShort);
    }
    write_outer(dst, u, out);
    write_tail(f, p, out, o);
    Ok(n as u16)
}

// The expansion call, with the far port's settings.
pub fn expand(s: Settings, u: Outer, frame: &[u8], out: &mut [u8]) -> Result<u16, Refusal>
    ensures { on_area result out.new ≡ expanded s (outer_as u) frame.now out.old }
{
    let p = compact_fields(s, u, frame)?;
    put_general(destination(s, frame, p), u, frame, p, out)
}
