// One entry of a contents area that is good: its count, its size as a sub-TLV, where the next one starts, and the sub-TLV's bytes. Places are
// counted in numbers of 8 bytes.
#![tactic(auto)]

ghost use Rattle.std.specs.Prelude.{◌+◌, ◌*◌, ◌<◌, ◌≤◌, true, ◌++◌, ◌≡◌, length};
ghost use Rattle.numbers.specs.Bytes.{bytes_of};
ghost use Rattle.frame_copy.specs.Areas.{pasted};
ghost use Rattle.hello.specs.Tlvs.{tlv_bytes};
ghost use Rattle.hello.specs.Pieces.{parameters_type, smart_mac_type, nickname_type, trees_type};
ghost use Rattle.hello.specs.Writing.{most_nicknames, most_trees, most_macs, head_of, sub_bytes};
ghost use Rattle.hello_area.specs.Entries.{numbers_in, label_good, label_bytes, parameters_bytes, holder_for, take_sub, reach, sub_at};
ghost use Rattle.hello_entry.specs.Kinds.{has_section, count_at};
ghost use Rattle.hello_entry.specs.Bytes.{parameters_at, label_at, record_at, number_at, four_macs, run};

use hello_ends::number;

// The types of the sections.
const PARAMETERS: u8 = 22;

const NICKNAME: u8 = 6;

const TREES: u8 = 8;

// The bytes of a sub-TLV without its list: type, length and what stands in front of the list.
const PARAMETERS_BYTES: usize = 6;

const NICKNAMES_BYTES: usize = 2;

const TREES_BYTES: usize = 4;

const SMART_MAC_BYTES: usize = 6;

// The bytes of an element of a list.
const RECORD_BYTES: usize = 5;

const TREE_BYTES: usize = 2;

const MAC_BYTES: usize = 6;

// How many numbers the record of a nickname has.
const RECORD_NUMBERS: usize = 3;

// Type and length of a sub-TLV, the length without the list's bytes.
const PARAMETERS_FRONT: u64 = 0x1604;

const NICKNAMES_FRONT: u64 = 0x600;

const TREES_FRONT: u64 = 0x802;

const SMART_MAC_FRONT: u64 = 0x1704;

// How many elements the list of an entry has, its bytes as a sub-TLV, and where the next entry starts.
#[derive(Clone, Copy)]
pub struct Measures {
    pub count: usize,
    pub size: usize,
    pub next: usize,
}

// An entry by its count, which is read once.
pub fn measure(kind: u8, area: &[u8], i: usize) -> Measures
    requires { (has_section kind ≡ true) × (reach (take_sub kind) (numbers_in area.now) i ≤ length (numbers_in area.now)) }
    ensures { ((result.count ≡ count_at kind (numbers_in area.now) i) × (result.next ≡ reach (take_sub kind) (numbers_in area.now) i)) × ((result.size ≡ length (sub_bytes (sub_at kind (numbers_in area.now) i))) × (length (head_of (holder_for kind)) + result.size ≤ 255)) }
{
    if kind == PARAMETERS {
        return Measures {
            count: 0,
            size: PARAMETERS_BYTES,
            next: i + 2,
        };
    }
    if kind == NICKNAME {
        let m = number(area, i) as usize;
        return Measures {
            count: m,
            size: NICKNAMES_BYTES + RECORD_BYTES * m,
            next: i + 1 + RECORD_NUMBERS * m,
        };
    }
    if kind == TREES {
        let m = number(area, i + 1) as usize;
        return Measures {
            count: m,
            size: TREES_BYTES + TREE_BYTES * m,
            next: i + 2 + m,
        };
    }
    let m = number(area, i + 3) as usize;
    Measures {
        count: m,
        size: SMART_MAC_BYTES + MAC_BYTES * m,
        next: i + 4 + m,
    }
}

// Puts the sub-TLV of an entry into an area, each type by a function: type and length, what stands in front of the list, and the list.
pub fn put_parameters(area: &[u8], i: usize, out: &mut [u8], at: usize)
    requires { (i + 2 ≤ length (numbers_in area.now)) × (at + 6 ≤ length out.old) }
    ensures { out.new ≡ pasted out.old at (tlv_bytes parameters_type (parameters_bytes (parameters_at (numbers_in area.now) i))) }
{
    frame_copy::put_number(PARAMETERS_FRONT, 2, out, at);
    put_low(area, i, 2, out, at + 2);
    put_low(area, i + 1, 2, out, at + 4);
}

pub fn put_nicknames(area: &[u8], i: usize, m: usize, out: &mut [u8], at: usize)
    requires { (m ≤ most_nicknames) × ((i + 1 + 3 * m ≤ length (numbers_in area.now)) × (at + (2 + 5 * m) ≤ length out.old)) }
    ensures { out.new ≡ pasted out.old at (tlv_bytes nickname_type (run (record_at (numbers_in area.now)) 3 (i + 1) m)) }
{
    frame_copy::put_number(NICKNAMES_FRONT + 5 * m as u64, 2, out, at);
    put_records(area, i + 1, m, out, at + 2);
}

pub fn put_trees(area: &[u8], i: usize, m: usize, out: &mut [u8], at: usize)
    requires { (m ≤ most_trees) × ((i + 2 + m ≤ length (numbers_in area.now)) × (at + (4 + 2 * m) ≤ length out.old)) }
    ensures { out.new ≡ pasted out.old at (tlv_bytes trees_type (number_at 2 (numbers_in area.now) i ++ run (number_at 2 (numbers_in area.now)) 1 (i + 2) m)) }
{
    frame_copy::put_number(TREES_FRONT + 2 * m as u64, 2, out, at);
    put_low(area, i, 2, out, at + 2);
    put_tree_nicknames(area, i + 2, m, out, at + 4);
}

pub fn put_smart_mac(area: &[u8], i: usize, m: usize, out: &mut [u8], at: usize)
    requires { (label_good (label_at (numbers_in area.now) i) ≡ true) × ((m ≤ most_macs) × ((i + 4 + m ≤ length (numbers_in area.now)) × (at + (6 + 6 * m) ≤ length out.old))) }
    ensures { out.new ≡ pasted out.old at (tlv_bytes smart_mac_type (label_bytes (label_at (numbers_in area.now) i) ++ run (number_at 6 (numbers_in area.now)) 1 (i + 4) m)) }
{
    frame_copy::put_number(SMART_MAC_FRONT + 6 * m as u64, 2, out, at);
    frame_copy::put_number(label(area, i), 4, out, at + 2);
    put_macs(area, i + 4, m, out, at + 6);
}

// F, M and the label of a Smart-MAC, as one number.
fn label(area: &[u8], i: usize) -> u64
    requires { (label_good (label_at (numbers_in area.now) i) ≡ true) × (i + 3 ≤ length (numbers_in area.now)) }
    ensures { bytes_of 4 result ≡ label_bytes (label_at (numbers_in area.now) i) }
{
    number(area, i) * 0x8000_0000 + number(area, i + 1) * 0x4000_0000 + number(area, i + 2)
}

// The last bytes of a number.
fn put_low(area: &[u8], i: usize, b: usize, out: &mut [u8], at: usize)
    requires { ((i < length (numbers_in area.now)) × (b ≤ 8)) × (at + b ≤ length out.old) }
    ensures { out.new ≡ pasted out.old at (number_at b (numbers_in area.now) i) }
{
    frame_copy::copy_block(frame_copy::part(area, 8 * i + (8 - b), b), out, at);
}

// The record of a nickname.
fn put_record(area: &[u8], i: usize, out: &mut [u8], at: usize)
    requires { (i + 3 ≤ length (numbers_in area.now)) × (at + 5 ≤ length out.old) }
    ensures { out.new ≡ pasted out.old at (record_at (numbers_in area.now) i) }
{
    put_low(area, i, 1, out, at);
    put_low(area, i + 1, 2, out, at + 1);
    put_low(area, i + 2, 2, out, at + 3);
}

// Eight bytes in one move.
fn put_wide(v: u64, out: &mut [u8], at: usize)
    requires { at + 8 ≤ length out.old }
    ensures { out.new ≡ pasted out.old at (bytes_of 8 v) }
{
    let e = at + 8;
    numbers::fill8(&mut out[at..e], v);
}

// A number of six bytes as eight.
fn put_mac(area: &[u8], i: usize, out: &mut [u8], at: usize)
    requires { (i < length (numbers_in area.now)) × (at + 8 ≤ length out.old) }
    ensures { out.new ≡ pasted out.old at (number_at 6 (numbers_in area.now) i ++ bytes_of 2 0) }
{
    put_wide(number(area, i) % 0x1_0000_0000_0000 * 0x1_0000, out, at);
}

// The lists. A MAC is put as eight bytes while the next one has the room: it goes over those that are too many.
// Records and trees have a loop of one call each: the contract of a closure for both would be longer than they are.
fn put_records(area: &[u8], i: usize, m: usize, out: &mut [u8], at: usize)
    requires { (i + 3 * m ≤ length (numbers_in area.now)) × (at + 5 * m ≤ length out.old) }
    ensures { out.new ≡ pasted out.old at (run (record_at (numbers_in area.now)) 3 i m) }
{
    for j in 0..m {
        put_record(area, i + 3 * j, out, at + 5 * j);
    }
}

fn put_few_trees(area: &[u8], i: usize, m: usize, out: &mut [u8], at: usize)
    requires { (i + m ≤ length (numbers_in area.now)) × (at + 2 * m ≤ length out.old) }
    ensures { out.new ≡ pasted out.old at (run (number_at 2 (numbers_in area.now)) 1 i m) }
{
    for j in 0..m {
        put_low(area, i + j, 2, out, at + 2 * j);
    }
}

// Four tree nicknames as one number of eight bytes, each from eight bytes of the area in which it stands where the number has it: the compiler
// then turns no bytes round.
fn four_trees(area: &[u8], i: usize) -> u64
    requires { i + 4 ≤ length (numbers_in area.now) }
    ensures { bytes_of 8 result ≡ run (number_at 2 (numbers_in area.now)) 1 i 4 }
{
    let k = 8 * i;
    numbers::be8(area, k + 6) / 0x1_0000_0000_0000 * 0x1_0000_0000_0000
        + numbers::be8(area, k + 12) / 0x1_0000_0000 % 0x1_0000 * 0x1_0000_0000
        + numbers::be8(area, k + 18) / 0x1_0000 % 0x1_0000 * 0x1_0000
        + numbers::be8(area, k + 24) % 0x1_0000
}

// Four at a time; the last four go over some that are there.
fn put_tree_nicknames(area: &[u8], i: usize, m: usize, out: &mut [u8], at: usize)
    requires { (i + m ≤ length (numbers_in area.now)) × (at + 2 * m ≤ length out.old) }
    ensures { out.new ≡ pasted out.old at (run (number_at 2 (numbers_in area.now)) 1 i m) }
{
    if m < 4 {
        put_few_trees(area, i, m, out, at);
        return;
    }
    let last = m - 4;
    for k in 0..(last + 3) / 4 {
        let j = 4 * k;
        put_wide(four_trees(area, i + j), out, at + 2 * j);
    }
    put_wide(four_trees(area, i + last), out, at + 2 * last);
}

fn put_few_macs(area: &[u8], i: usize, m: usize, out: &mut [u8], at: usize)
    requires { (i + m ≤ length (numbers_in area.now)) × (at + 6 * m ≤ length out.old) }
    ensures { out.new ≡ pasted out.old at (run (number_at 6 (numbers_in area.now)) 1 i m) }
{
    if m == 0 {
        return;
    }
    let last = m - 1;
    for j in 0..last {
        put_mac(area, i + j, out, at + 6 * j);
    }
    put_low(area, i + last, 6, out, at + 6 * last);
}

// Four MACs, one behind the other.
fn four_macs(area: &[u8], i: usize, out: &mut [u8], at: usize)
    requires { (i + 4 ≤ length (numbers_in area.now)) × (at + 26 ≤ length out.old) }
    ensures { out.new ≡ four_macs (numbers_in area.now) i out.old at }
{
    put_mac(area, i, out, at);
    put_mac(area, i + 1, out, at + 6);
    put_mac(area, i + 2, out, at + 12);
    put_mac(area, i + 3, out, at + 18);
}

// Four at a time: a loop of one takes a twentieth more where it lies across two lines of the cache.
fn put_macs(area: &[u8], i: usize, m: usize, out: &mut [u8], at: usize)
    requires { (i + m ≤ length (numbers_in area.now)) × (at + 6 * m ≤ length out.old) }
    ensures { out.new ≡ pasted out.old at (run (number_at 6 (numbers_in area.now)) 1 i m) }
{
    let fours = m.saturating_sub(1) / 4;
    for k in 0..fours {
        let j = 4 * k;
        four_macs(area, i + j, out, at + 6 * j);
    }
    let n = 4 * fours;
    put_few_macs(area, i + n, m - n, out, at + 6 * n);
}
