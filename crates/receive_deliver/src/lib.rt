// Delivering a frame: 13, 22, 16; the native frame is written, with its tag where it gets one, and its source learned. What a map says
// of it comes as a tag: nothing here takes a map.
#![tactic(auto)]

ghost use Rattle.std.specs.Prelude.{◌+◌, ◌^◌, ◌<◌, ◌≤◌, true, ◌≡◌, length, Err};
ghost use Rattle.numbers.specs.Result.{settled};
ghost use Rattle.numbers.specs.After.{on_both};
ghost use Rattle.numbers.specs.Bytes.{laid};
ghost use Rattle.table.specs.Record.{label_number};
ghost use Rattle.frame.specs.Front.{addresses_bytes};
ghost use Rattle.frame.specs.Labels.{label_read};
ghost use Rattle.frame.specs.Settings.{settings_good, default_life};
ghost use Rattle.receive.specs.Receive.{delivery};
ghost use Rattle.frame_parse.specs.Meaning.{fields_in, PartsOf};
ghost use Rattle.receive_decide.specs.Meaning.{ValuesOf};
ghost use Rattle.frame_copy.specs.Areas.{pasted};
ghost use Rattle.receive_deliver.specs.Meaning.{Asks, tag_of, tag_length, is_missing, native_as, written_with, native_length};

use frame::{ADDRESSES_BYTES, ETHERTYPE_BYTES, LABEL_PART, Settings, TAG_BYTES, TAG_ETHERTYPE};
use frame_parse::Parts;
use numbers::refusals::Refusal;
use port_map::CampusLabel;
use receive::ReadAnswer;
use receive_decide::FieldValues;
use table::Label;

// The 12 bits of a tag's number start here in a label, and the low 12 of a fine-grained label.
const PART_OFFSET: usize = ETHERTYPE_BYTES;

const LOW_PART_OFFSET: usize = TAG_BYTES + ETHERTYPE_BYTES;

// The label of a frame.
fn label_of(f: &[u8], p: Parts) -> Label
    requires { PartsOf f.now p }
    ensures { (result ≡ label_read (fields_in f.now p).label) × (label_number result < 2 ^ 24) }
{
    let k = p.dst_offset + ADDRESSES_BYTES;
    let high = frame_fields::label_part(f, k + PART_OFFSET);
    if p.label_length == TAG_BYTES {
        return Label::Vlan(high as u16);
    }
    let low = frame_fields::label_part(f, k + LOW_PART_OFFSET);
    Label::Fine((high * LABEL_PART + low) as u32)
}

// What the label of a frame asks of a map: nothing, or the VLAN of a fine-grained label, whose second part is these two bytes.
#[derive(Clone, Copy)]
pub enum Wanted {
    Nothing,
    Vlan { label: CampusLabel, second: u16 },
}

pub fn label_asks(f: &[u8], p: Parts) -> Wanted
    requires { PartsOf f.now p }
    ensures { Asks result (fields_in f.now p) }
{
    if p.label_length == TAG_BYTES {
        return Wanted::Nothing;
    }
    let k = p.dst_offset + ADDRESSES_BYTES;
    let high = frame_fields::label_part(f, k + PART_OFFSET);
    let second = numbers::be2(f, k + LOW_PART_OFFSET);
    Wanted::Vlan {
        label: CampusLabel((high * LABEL_PART + second % LABEL_PART) as u32),
        second: second as u16,
    }
}

// The tag that a native frame gets: none, one with this number in its two bytes, or no VLAN was found for it.
#[derive(Clone, Copy)]
pub enum Tag {
    Untagged,
    Number(u64),
    Missing,
}

fn tag_missing(tag: Tag) -> bool
    ensures { result ≡ is_missing tag }
{
    match tag {
        Tag::Untagged => false,
        Tag::Number(_) => false,
        Tag::Missing => true,
    }
}

fn tag_bytes(tag: Tag) -> usize
    ensures { (result ≡ tag_length tag) × (result ≤ 4) }
{
    match tag {
        Tag::Untagged => 0,
        Tag::Number(_) => TAG_BYTES,
        Tag::Missing => 0,
    }
}

// The number of a tag: its length and its offset.
const TAG_NUMBER_BYTES: usize = TAG_BYTES - ETHERTYPE_BYTES;

const TAG_NUMBER_OFFSET: usize = ADDRESSES_BYTES + ETHERTYPE_BYTES;

// Writes the tag after the two addresses, where there is one.
fn write_tag(tag: Tag, out: &mut [u8])
    requires { addresses_bytes + tag_length tag ≤ length out.old }
    ensures { out.new ≡ pasted out.old addresses_bytes (tag_of tag) }
{
    match tag {
        Tag::Untagged => {}
        Tag::Number(w) => {
            frame_copy::put_number(TAG_ETHERTYPE, ETHERTYPE_BYTES, out, ADDRESSES_BYTES);
            frame_copy::put_number(w, TAG_NUMBER_BYTES, out, TAG_NUMBER_OFFSET);
        }
        Tag::Missing => {}
    }
}

// Writes the native frame to the start of the output area.
fn write_native(f: &[u8], p: Parts, tag: Tag, out: &mut [u8])
    requires { PartsOf f.now p × (native_length tag (length f.now) p ≤ length out.old) }
    ensures { out.new ≡ laid (written_with tag (fields_in f.now p)) out.old }
{
    frame_copy::copy_block(frame_copy::part(f, p.dst_offset, ADDRESSES_BYTES), out, 0);
    write_tag(tag, out);
    let k = tag_bytes(tag);
    let content = frame_fields::after(f, p.content_offset);
    frame_copy::copy_block(content, out, ADDRESSES_BYTES + k);
}

// Delivers a frame that is neither onward nor a channel frame.
pub fn deliver(
    s: Settings,
    v: FieldValues,
    f: &[u8],
    p: Parts,
    tag: Tag,
    table: &mut [u8],
    out: &mut [u8],
) -> Result<ReadAnswer, Refusal>
    requires { (settings_good s ≡ true) × (PartsOf f.now p × ValuesOf (fields_in f.now p) v) }
    ensures { on_both result table.new out.new ≡ settled (λ n. on_both (Err n) table.old out.old) (delivery (native_as tag (fields_in f.now p)) default_life s (fields_in f.now p) table.old out.old) }
{
    if frame_settings::is_trill_group(v.dst) {
        return Err(Refusal::NotChannel);
    }
    if tag_missing(tag) {
        return Err(Refusal::NoPair);
    }
    let k = tag_bytes(tag);
    let n = ADDRESSES_BYTES + k + (f.len() - p.content_offset);
    if out.len() < n {
        return Err(Refusal::AreaShort);
    }
    let label = label_of(f, p);
    write_native(f, p, tag, out);
    let mark = receive_teach::is_marked(s, f, p);
    let entry = receive_teach::learned_entry(s, label, v.src, v.ingress, mark);
    let how = receive_teach::teach(s.nickname, entry, table);
    Ok(ReadAnswer::Delivered {
        learning: how,
        length: n as u16,
        label: label,
    })
}
