// Compaction: a General frame as a Compact one.
#![tactic(auto)]

ghost use Rattle.std.specs.Prelude.{◌≤◌, ◌≡◌, length};
ghost use Rattle.numbers.specs.After.{on_area};
ghost use Rattle.numbers.specs.Bytes.{laid};
ghost use Rattle.frame.specs.Formats.{longest_frame, general};
ghost use Rattle.frame_fields.specs.Meaning.{front_as};
ghost use Rattle.frame_parse.specs.Meaning.{fields_in, PartsOf, Reads};
ghost use Rattle.convert.specs.Compaction.{compact_bytes, stays_general, compact_room, compacted};
ghost use Rattle.convert_compact.specs.Meaning.{fields_at, compact_length, put_on, filled};

use frame::{
    ADDRESSES_BYTES, ETHERTYPE_BYTES, FIXED_HEADER_BYTES, LONGEST_FRAME, SHORTEST_FRAME, Settings,
    TAGGED_ADDRESSES_BYTES, TRILL_ETHERTYPE, UNTAGGED_OUTER_BYTES,
};
use frame_fields::Front;
use frame_parse::Parts;
use numbers::refusals::Refusal;

// As `frame_parse::read_general`. With two callers `general_after_outer` stays a call, and both of these are short enough to be a part of
// their callers' code, where a frame that is not TRILL is refused at once.
fn general_parts(d: Front, f: &[u8]) -> Result<Parts, Refusal>
    requires { length f.now ≤ longest_frame }
    ensures { Reads f.now (general (front_as d) f.now) result }
{
    let o = frame_fields::outer_length(f)?;
    frame_parse::general_after_outer(d, f, o)
}

// The parts of a General frame, after the test of the settings; a Compact frame in front is 17.
pub fn general_fields(port: u64, f: &[u8]) -> Result<Parts, Refusal>
    ensures { Reads f.now (fields_at port f.now) result }
{
    let n = f.len();
    if n < SHORTEST_FRAME {
        return Err(Refusal::FrameLengthBad);
    }
    if LONGEST_FRAME < n {
        return Err(Refusal::FrameLengthBad);
    }
    let d = frame_fields::front_of(port, numbers::be6(f, 0));
    match d {
        Front::Unicast | Front::Multicast => general_parts(d, f),
        Front::Refused => Err(Refusal::NotForPort),
        Front::Inner => Err(Refusal::NotCompactable),
    }
}

// Whether an inner destination would not mean Compact in front: a reserved group, or the far port's address.
pub fn stays_general(s: Settings, a: u64) -> bool
    ensures { result ≡ stays_general s a }
{
    frame_settings::is_reserved(a) | (a == s.port)
}

// Writes the Compact frame: inner addresses and label, 22F3, header, content.
fn write_compact(f: &[u8], p: Parts, out: &mut [u8])
    requires { PartsOf f.now p × (compact_length (length f.now) p ≤ length out.old) }
    ensures { out.new ≡ laid (compact_bytes (fields_in f.now p)) out.old }
{
    let n = ADDRESSES_BYTES + p.label_length;
    let k = p.header_length;
    frame_copy::copy_part(f, p.dst_offset, n, TAGGED_ADDRESSES_BYTES, out, 0);
    frame_copy::put_number(TRILL_ETHERTYPE, ETHERTYPE_BYTES, out, n);
    frame_copy::copy_part(
        f,
        p.header_offset,
        k,
        FIXED_HEADER_BYTES,
        out,
        n + ETHERTYPE_BYTES,
    );
    frame_copy::copy_block(
        frame_fields::after(f, p.content_offset),
        out,
        n + ETHERTYPE_BYTES + k,
    );
}

// Writes the Compact frame where there is room for it.
pub fn put_compact(f: &[u8], p: Parts, out: &mut [u8]) -> Result<u16, Refusal>
    requires { PartsOf f.now p }
    ensures { on_area result out.new ≡ put_on (compact_bytes (fields_in f.now p)) out.old }
{
    let n = UNTAGGED_OUTER_BYTES + p.label_length + p.header_length + (f.len() - p.content_offset);
    if out.len() < n {
        return Err(Refusal::AreaShort);
    }
    write_compact(f, p, out);
    Ok(n as u16)
}

// Writes the Compact frame of a General one to an area with room for every such frame, and gives its length.
pub fn fill_compact(f: &[u8], p: Parts, out: &mut [u8]) -> u16
    requires { PartsOf f.now p × (compact_length (length f.now) p ≤ compact_room) × (compact_room ≤ length out.old) }
    ensures { on_area result out.new ≡ filled (compact_bytes (fields_in f.now p)) out.old }
{
    let n = UNTAGGED_OUTER_BYTES + p.label_length + p.header_length + (f.len() - p.content_offset);
    write_compact(f, p, out);
    n as u16
}

// The compaction call, with the far port's settings.
pub fn compact(s: Settings, frame: &[u8], out: &mut [u8]) -> Result<u16, Refusal>
    ensures { on_area result out.new ≡ compacted s frame.now out.old }
{
    if !frame_settings::settings_good(s) {
        return Err(Refusal::SettingsBad);
    }
    let p = general_fields(s.port, frame)?;
    if stays_general(s, numbers::be6(frame, p.dst_offset)) {
        return Err(Refusal::NotCompactable);
    }
    put_compact(frame, p, out)
}
