// Reading a frame of either format into one set of fields, from left to right with the refusals in their order. From `Parts` on
// nothing shows which format arrived.
// Refusals are handed on by a `match`: with `?` a frame that goes onward takes 1.2 times as long.
#![tactic(auto)]

ghost use Rattle.std.specs.Prelude.{◌≤◌, ◌≡◌, length, drop, Ok};
ghost use Rattle.frame.specs.Front.{addresses_bytes};
ghost use Rattle.frame.specs.Labels.{label_length};
ghost use Rattle.frame.specs.Formats.{longest_frame, outer_length, general, compact, parsed};
ghost use Rattle.frame_fields.specs.Meaning.{front_as};
ghost use Rattle.frame_parse.specs.Meaning.{Reads};

use frame::{
    ADDRESSES_BYTES, COMPACT_ON, ETHERTYPE_BYTES, LEAST_CONTENT, LONGEST_FRAME, SHORTEST_FRAME,
    Settings, TRILL_ETHERTYPE,
};
use frame_fields::Front;
use numbers::refusals::Refusal;

// Where the parts of a frame are, as offsets and lengths. The inner source follows the inner destination, and the label follows both.
#[derive(Clone, Copy)]
pub struct Parts {
    pub dst_offset: usize,
    pub label_length: usize,
    pub header_offset: usize,
    pub header_length: usize,
    pub content_offset: usize,
}

// A General frame, after its outer part of o bytes.
pub fn general_after_outer(d: Front, f: &[u8], o: usize) -> Result<Parts, Refusal>
    requires { (outer_length f.now ≡ Ok o) × (length f.now ≤ longest_frame) }
    ensures { Reads f.now (general (front_as d) f.now) result }
{
    let l = frame_fields::after(f, o);
    match frame_fields::header_length(d, l) {
        Err(e) => Err(e),
        Ok(h) => {
            let a = frame_fields::after(l, h);
            if a.len() < ADDRESSES_BYTES {
                return Err(Refusal::CutShort);
            }
            let t = frame_fields::after(a, ADDRESSES_BYTES);
            match frame_fields::label_length(t) {
                Err(e) => Err(e),
                Ok(n) => {
                    if frame_fields::after(t, n).len() < LEAST_CONTENT {
                        return Err(Refusal::CutShort);
                    }
                    Ok(Parts {
                        dst_offset: o + h,
                        label_length: n,
                        header_offset: o,
                        header_length: h,
                        content_offset: o + h + ADDRESSES_BYTES + n,
                    })
                }
            }
        }
    }
}

// A General frame.
pub fn read_general(d: Front, f: &[u8]) -> Result<Parts, Refusal>
    requires { length f.now ≤ longest_frame }
    ensures { Reads f.now (general (front_as d) f.now) result }
{
    match frame_fields::outer_length(f) {
        Err(e) => Err(e),
        Ok(o) => general_after_outer(d, f, o),
    }
}

// A Compact frame, after its label of k bytes.
pub fn compact_after_label(f: &[u8], k: usize) -> Result<Parts, Refusal>
    requires { (addresses_bytes ≤ length f.now) × ((label_length (drop addresses_bytes f.now) ≡ Ok k) × (length f.now ≤ longest_frame)) }
    ensures { Reads f.now (compact f.now) result }
{
    let l = frame_fields::after(f, ADDRESSES_BYTES + k);
    if l.len() < ETHERTYPE_BYTES {
        return Err(Refusal::CutShort);
    }
    if !frame_fields::has_ethertype(l, 0, TRILL_ETHERTYPE) {
        return Err(Refusal::NotTrill);
    }
    let g = frame_fields::after(l, ETHERTYPE_BYTES);
    match frame_fields::header_length(Front::Inner, g) {
        Err(e) => Err(e),
        Ok(h) => {
            if frame_fields::after(g, h).len() < LEAST_CONTENT {
                return Err(Refusal::CutShort);
            }
            Ok(Parts {
                dst_offset: 0,
                label_length: k,
                header_offset: ADDRESSES_BYTES + k + ETHERTYPE_BYTES,
                header_length: h,
                content_offset: ADDRESSES_BYTES + k + ETHERTYPE_BYTES + h,
            })
        }
    }
}

// A Compact frame.
pub fn read_compact(f: &[u8]) -> Result<Parts, Refusal>
    requires { (addresses_bytes ≤ length f.now) × (length f.now ≤ longest_frame) }
    ensures { Reads f.now (compact f.now) result }
{
    match frame_fields::label_length(frame_fields::after(f, ADDRESSES_BYTES)) {
        Err(e) => Err(e),
        Ok(k) => compact_after_label(f, k),
    }
}

// A frame of either format, up to its content.
pub fn parse(s: Settings, f: &[u8]) -> Result<Parts, Refusal>
    ensures { Reads f.now (parsed s f.now) result }
{
    let n = f.len();
    if n < SHORTEST_FRAME {
        return Err(Refusal::FrameLengthBad);
    }
    if LONGEST_FRAME < n {
        return Err(Refusal::FrameLengthBad);
    }
    let d = frame_fields::front_of(s.port, numbers::be6(f, 0));
    match d {
        Front::Unicast => read_general(d, f),
        Front::Multicast => read_general(d, f),
        Front::Refused => Err(Refusal::NotForPort),
        Front::Inner => {
            if s.compact == COMPACT_ON {
                return read_compact(f);
            }
            Err(Refusal::NotForPort)
        }
    }
}
