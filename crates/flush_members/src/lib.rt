// Membership in what a flush payload writes: a list of numbers, a list of blocks, a bit map; over the numbering.
#![tactic(auto)]

ghost use Rattle.std.specs.Prelude.{◌+◌, ◌*◌, ◌<◌, ◌≤◌, ◌≡◌, length, take, drop};
ghost use Rattle.numbers.specs.Bytes.{num};
ghost use Rattle.numbers.specs.Numberings.{vlans, fines, macs, nicknames, number_of, in_block, filled, in_blocks, some_filled, in_list, bit_of, bit_at, in_map};
ghost use Rattle.flush_members.specs.Sound.{Width, Sound, numbering};

use numbers::Numbering;

// The numberings of a payload.
const VLANS: Numbering = Numbering {
    size: 2,
    modulus: 0x1000,
    low: 1,
    high: 0xffe,
};

pub const FINES: Numbering = Numbering {
    size: 3,
    modulus: 0x100_0000,
    low: 0,
    high: 0xff_ffff,
};

pub const MACS: Numbering = Numbering {
    size: 6,
    modulus: 0x1_0000_0000_0000,
    low: 0,
    high: 0xffff_ffff_ffff,
};

const NICKNAMES: Numbering = Numbering {
    size: 2,
    modulus: 0x1_0000,
    low: 0,
    high: 0xffff,
};

// The number of the bytes at a place; the three widths that a payload has are read without a loop.
fn leading(v: &[u8], at: usize, size: usize) -> u64
    requires { Width size × (at + size ≤ length v.now) }
    ensures { result ≡ num (take size (drop at v.now)) }
{
    if size == 2 {
        return numbers::be2(v, at);
    }
    if size == 3 {
        return numbers::be3(v, at);
    }
    numbers::be6(v, at)
}

// The number at a place. Only where reserved bits are set there is a division.
pub fn number_at(v: &[u8], at: usize, w: Numbering) -> u64
    requires { Sound w × (at + w.size ≤ length v.now) }
    ensures { result ≡ number_of w (drop at v.now) }
{
    let n = leading(v, at, w.size);
    if n < w.modulus {
        return n;
    }
    n % w.modulus
}

// Whether x, a number that there is, is in the block at a place: both ends belong to it.
fn block_has(v: &[u8], at: usize, w: Numbering, x: u64) -> bool
    requires { (Sound w × (at + 2 * w.size ≤ length v.now)) × ((w.low ≤ x) × (x ≤ w.high)) }
    ensures { result ≡ in_block w x (drop at v.now) }
{
    let start = number_at(v, at, w);
    let end = number_at(v, at + w.size, w);
    (start <= x) & (x <= end)
}

// Whether the block of MACs at a place is not empty.
fn mac_block_filled(v: &[u8], at: usize) -> bool
    requires { at + 12 ≤ length v.now }
    ensures { result ≡ filled macs (drop at v.now) }
{
    let start = number_at(v, at, MACS);
    let end = number_at(v, at + 6, MACS);
    start <= end
}

// Whether some block of a list has x in it. The numbering comes as its four numbers: so the compiler knows them at each call, and
// makes a loop for each width.
fn in_blocks(v: &[u8], size: usize, modulus: u64, low: u64, high: u64, x: u64) -> bool
    requires { Sound (numbering size modulus low high) }
    ensures { result ≡ in_blocks (numbering size modulus low high) x v.now }
{
    if x < low {
        return false;
    }
    if high < x {
        return false;
    }
    let w = Numbering {
        size,
        modulus,
        low,
        high,
    };
    let k = 2 * size;
    for i in 0..v.len() / k {
        if block_has(v, i * k, w, x) {
            return true;
        }
    }
    false
}

// Whether a list of numbers has x in it.
fn in_list(v: &[u8], size: usize, modulus: u64, low: u64, high: u64, x: u64) -> bool
    requires { Sound (numbering size modulus low high) }
    ensures { result ≡ in_list (numbering size modulus low high) x v.now }
{
    let w = Numbering {
        size,
        modulus,
        low,
        high,
    };
    for i in 0..v.len() / size {
        if number_at(v, i * size, w) == x {
            return true;
        }
    }
    false
}

// Bit k of a byte, the high one first.
fn bit(b: u8, k: u8) -> bool
    requires { k < 8 }
    ensures { result ≡ bit_of b k }
{
    (b >> (7 - k)) % 2 == 1
}

// Bit i of the map at a place; one past the end is not set.
fn bit_at(v: &[u8], at: usize, i: u64) -> bool
    requires { at ≤ length v.now }
    ensures { result ≡ bit_at i (drop at v.now) }
{
    let k = (i / 8) as usize;
    if v.len() - at <= k {
        return false;
    }
    bit(v[at + k], (i % 8) as u8)
}

// Whether the bit map behind a start, which was read, has x in it.
pub fn map_has(v: &[u8], w: Numbering, start: u64, x: u64) -> bool
    requires { (w.size ≤ length v.now) × (start ≡ number_of w (drop 0 v.now)) }
    ensures { result ≡ in_map w x v.now }
{
    if !((w.low <= x) & (x <= w.high)) {
        return false;
    }
    if x < start {
        return false;
    }
    bit_at(v, w.size, x - start)
}

// Whether a start with a bit map behind it has x in it.
pub fn in_map(v: &[u8], w: Numbering, x: u64) -> bool
    requires { Sound w }
    ensures { result ≡ in_map w x v.now }
{
    if v.len() < w.size {
        return false;
    }
    map_has(v, w, number_at(v, 0, w), x)
}

// Whether some block of MACs is not empty.
pub fn some_mac_block(v: &[u8]) -> bool
    ensures { result ≡ some_filled macs v.now }
{
    let k = 2 * MACS.size;
    for i in 0..v.len() / k {
        if mac_block_filled(v, i * k) {
            return true;
        }
    }
    false
}

// Lists, blocks and maps of each numbering that a payload has.
pub fn in_vlan_blocks(v: &[u8], x: u64) -> bool
    ensures { result ≡ in_blocks vlans x v.now }
{
    in_blocks(v, VLANS.size, VLANS.modulus, VLANS.low, VLANS.high, x)
}

pub fn in_fine_blocks(v: &[u8], x: u64) -> bool
    ensures { result ≡ in_blocks fines x v.now }
{
    in_blocks(v, FINES.size, FINES.modulus, FINES.low, FINES.high, x)
}

pub fn in_mac_blocks(v: &[u8], x: u64) -> bool
    ensures { result ≡ in_blocks macs x v.now }
{
    in_blocks(v, MACS.size, MACS.modulus, MACS.low, MACS.high, x)
}

pub fn in_nicknames(v: &[u8], x: u64) -> bool
    ensures { result ≡ in_list nicknames x v.now }
{
    in_list(
        v,
        NICKNAMES.size,
        NICKNAMES.modulus,
        NICKNAMES.low,
        NICKNAMES.high,
        x,
    )
}

pub fn in_fines(v: &[u8], x: u64) -> bool
    ensures { result ≡ in_list fines x v.now }
{
    in_list(v, FINES.size, FINES.modulus, FINES.low, FINES.high, x)
}

pub fn in_macs(v: &[u8], x: u64) -> bool
    ensures { result ≡ in_list macs x v.now }
{
    in_list(v, MACS.size, MACS.modulus, MACS.low, MACS.high, x)
}

pub fn in_vlan_map(v: &[u8], x: u64) -> bool
    ensures { result ≡ in_map vlans x v.now }
{
    in_map(v, VLANS, x)
}

pub fn in_fine_map(v: &[u8], x: u64) -> bool
    ensures { result ≡ in_map fines x v.now }
{
    in_map(v, FINES, x)
}
