// The numbers of a sub-TLV written into a contents area, 8 bytes each.
#![tactic(auto)]

ghost use Rattle.std.specs.Prelude.{◌+◌, ◌-◌, ◌*◌, ◌/◌, ◌%◌, ◌<◌, ◌≤◌, ◌≡◌, length, take, drop};
ghost use mathlib.Core.List.{map, flat_map};
ghost use Rattle.numbers.specs.Bytes.{num, bytes_of, parts};
ghost use Rattle.frame_copy.specs.Areas.{pasted};
ghost use Rattle.hello.specs.Reading.{parameters_of, nickname_of, trees_of, smart_mac_of, label_in};
ghost use Rattle.hello.specs.Area.{counted, parameters_numbers, nickname_numbers, trees_numbers, smart_mac_numbers};
ghost use Rattle.hello_words.specs.Words.{words, record_words, number_word, label_words};

// Writes a number.
pub fn put_word(v: u64, out: &mut [u8], at: usize)
    requires { at + 8 ≤ length out.old }
    ensures { out.new ≡ pasted out.old at (bytes_of 8 v) }
{
    let e = at + 8;
    numbers::fill8(&mut out[at..e], v);
}

// The number of the B bytes at k: the last of the eight bytes that end with them, so that the compiler makes one load.
fn last<const B: usize>(v: &[u8], k: usize) -> u64
    requires { (B ≤ 6) × ((8 ≤ k + B) × (k + B ≤ length v.now)) }
    ensures { result ≡ num (take B (drop k v.now)) }
{
    numbers::be8(v, k + B - 8) % (1 << (8 * B))
}

// The record of a nickname: the first of a sub-TLV, whose numbers have no eight bytes that end with them, and one behind it.
fn put_first_record(v: &[u8], out: &mut [u8], at: usize)
    requires { (5 ≤ length v.now) × (at + 24 ≤ length out.old) }
    ensures { out.new ≡ pasted out.old at (record_words (take 5 v.now)) }
{
    put_word(numbers::wide(v[0]), out, at);
    put_word(numbers::be2(v, 1), out, at + 8);
    put_word(numbers::be2(v, 3), out, at + 16);
}

fn put_record(v: &[u8], from: usize, out: &mut [u8], at: usize)
    requires { ((5 ≤ from) × (from + 5 ≤ length v.now)) × (at + 24 ≤ length out.old) }
    ensures { out.new ≡ pasted out.old at (record_words (take 5 (drop from v.now))) }
{
    put_word(numbers::wide(v[from]), out, at);
    put_word(last::<2>(v, from + 1), out, at + 8);
    put_word(last::<2>(v, from + 3), out, at + 16);
}

fn put_records(v: &[u8], out: &mut [u8], at: usize)
    requires { (length v.now % 5 ≡ 0) × (at + 24 * (length v.now / 5) ≤ length out.old) }
    ensures { out.new ≡ pasted out.old at (flat_map record_words (parts 5 v.now)) }
{
    let n = v.len() / 5;
    if n < 1 {
        return;
    }
    put_first_record(v, out, at);
    for i in 1..n {
        put_record(v, 5 * i, out, at + 24 * i);
    }
}

// The numbers of B bytes from a place on.
fn put_numbers<const B: usize>(v: &[u8], from: usize, out: &mut [u8], at: usize)
    requires { ((0 < B) × (B ≤ 6)) × ((8 ≤ from + B) × ((from ≤ length v.now) × (((length v.now - from) % B ≡ 0) × (at + 8 * ((length v.now - from) / B) ≤ length out.old)))) }
    ensures { out.new ≡ pasted out.old at (flat_map number_word (parts B (drop from v.now))) }
{
    let n = (v.len() - from) / B;
    for i in 0..n {
        put_word(last::<B>(v, from + B * i), out, at + 8 * i);
    }
}

// The nicknames of trees, behind the starting tree number: the first two have no eight bytes that end with them.
fn put_roots(v: &[u8], out: &mut [u8], at: usize)
    requires { (2 ≤ length v.now) × ((length v.now % 2 ≡ 0) × (at + 8 * ((length v.now - 2) / 2) ≤ length out.old)) }
    ensures { out.new ≡ pasted out.old at (flat_map number_word (parts 2 (drop 2 v.now))) }
{
    let n = (v.len() - 2) / 2;
    if n < 1 {
        return;
    }
    put_word(numbers::be2(v, 2), out, at);
    if n < 2 {
        return;
    }
    put_word(numbers::be2(v, 4), out, at + 8);
    put_numbers::<2>(v, 6, out, at + 16);
}

// The sub-TLVs of a length that their type allows.
pub fn put_parameters(v: &[u8], out: &mut [u8], at: usize)
    requires { (length v.now ≡ 4) × (at + 16 ≤ length out.old) }
    ensures { out.new ≡ pasted out.old at (words (parameters_numbers (parameters_of v.now))) }
{
    put_word(numbers::be2(v, 0), out, at);
    put_word(numbers::be2(v, 2), out, at + 8);
}

pub fn put_nicknames(v: &[u8], out: &mut [u8], at: usize)
    requires { (length v.now % 5 ≡ 0) × (at + 8 * (1 + 3 * (length v.now / 5)) ≤ length out.old) }
    ensures { out.new ≡ pasted out.old at (words (counted nickname_numbers (map nickname_of (parts 5 v.now)))) }
{
    put_word((v.len() / 5) as u64, out, at);
    put_records(v, out, at + 8);
}

pub fn put_trees(v: &[u8], out: &mut [u8], at: usize)
    requires { (2 ≤ length v.now) × ((length v.now % 2 ≡ 0) × (at + 8 * (2 + (length v.now - 2) / 2) ≤ length out.old)) }
    ensures { out.new ≡ pasted out.old at (words (trees_numbers (trees_of v.now))) }
{
    put_word(numbers::be2(v, 0), out, at);
    put_word(((v.len() - 2) / 2) as u64, out, at + 8);
    put_roots(v, out, at + 16);
}

// The label of a Smart-MAC: 24 bits with F, else 12.
fn label(x: u64) -> u64
    ensures { result ≡ label_in x }
{
    if x / 0x8000_0000 % 2 == 1 {
        return x % 0x100_0000;
    }
    x % 0x1000
}

// F, M and the label.
fn put_label(x: u64, out: &mut [u8], at: usize)
    requires { at + 24 ≤ length out.old }
    ensures { out.new ≡ pasted out.old at (label_words x) }
{
    put_word(x / 0x8000_0000 % 2, out, at);
    put_word(x / 0x4000_0000 % 2, out, at + 8);
    put_word(label(x), out, at + 16);
}

pub fn put_smart_mac(v: &[u8], out: &mut [u8], at: usize)
    requires { (4 ≤ length v.now) × (((length v.now - 4) % 6 ≡ 0) × (at + 8 * (4 + (length v.now - 4) / 6) ≤ length out.old)) }
    ensures { out.new ≡ pasted out.old at (words (smart_mac_numbers (smart_mac_of v.now))) }
{
    put_label(numbers::be4(v, 0), out, at);
    put_word(((v.len() - 4) / 6) as u64, out, at + 24);
    put_numbers::<6>(v, 4, out, at + 32);
}
