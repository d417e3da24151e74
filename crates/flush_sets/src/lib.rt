// The VLANs of blocks and of bit maps, added to a set of bits.
#![tactic(auto)]

ghost use Rattle.std.specs.Prelude.{ℕ, ◌+◌, ◌-◌, ◌*◌, ◌^◌, ◌≤◌, ◌<◌, ◌≡◌, length};
ghost use Rattle.flush_sets.specs.Gains.{Gains, in_vlan_block, in_vlan_blocks, in_vlan_map, Edged, vlan_in_byte, vlan_in_shifted};

// Adds the VLANs of a block.
fn add_block(block: &[u8], s: &mut [u8])
    requires { (4 ≤ length block.now) × (length s.old ≡ 512) }
    ensures { Gains s.old s.new (in_vlan_block block.now) }
{
    let first = numbers::at_least(1, numbers::be2(block, 0) % 0x1000);
    let last = numbers::at_most(0xffe, numbers::be2(block, 2) % 0x1000);
    if first <= last {
        flush_bits::add_range(s, first as usize, last as usize + 1);
    }
}

// Adds the VLANs of a list of blocks.
pub fn add_blocks(v: &[u8], s: &mut [u8])
    requires { length s.old ≡ 512 }
    ensures { Gains s.old s.new (in_vlan_blocks v.now) }
{
    for block in v.chunks_exact(4) {
        add_block(block, s);
    }
}

// A byte of a map without the bits of VLAN 0 and VLAN FFF, where it would be byte w of the set.
fn edged(w: usize, m: u8) -> u8
    requires { w ≤ 511 }
    ensures { Edged w m result }
{
    if w == 0 {
        return m % 0x80;
    }
    if w == 511 {
        return m / 2 * 2;
    }
    m
}

// Adds the bits of a map that fall on byte w of the set.
fn add_vlans(s: &mut [u8], w: usize, m: u8)
    requires { length s.old ≡ 512 }
    ensures { Gains s.old s.new (vlan_in_byte w m) }
{
    if w <= 511 {
        flush_bits::add_byte(s, w, edged(w, m));
    }
}

// A byte of a map in the two bytes that it falls on, from bit k of the first on.
fn shifted(m: u8, k: usize) -> u64
    requires { k < 8 }
    ensures { (result ≡ m * 2 ^ (8 - k)) × (result < 2 ^ 16) }
{
    numbers::wide(m) << (8 - k)
}

// Adds the bits of a byte of a map whose high bit is number n: they fall on two bytes of the set.
fn add_shifted(s: &mut [u8], n: usize, m: u8)
    requires { (length s.old ≡ 512) × (n < 2 ^ 32) }
    ensures { Gains s.old s.new (vlan_in_shifted n m) }
{
    let w = n / 8;
    let two = shifted(m, n % 8);
    add_vlans(s, w, (two / 0x100) as u8);
    add_vlans(s, w + 1, (two % 0x100) as u8);
}

// Adds the VLANs of a start with a bit map behind it.
pub fn add_map(v: &[u8], s: &mut [u8])
    requires { length s.old ≡ 512 }
    ensures { Gains s.old s.new (in_vlan_map v.now) }
{
    if v.len() < 2 {
        return;
    }
    let mut n = (numbers::be2(v, 0) % 0x1000) as usize;
    for m in &v[2..] {
        if 0xfff < n {
            return;
        }
        add_shifted(s, n, *m);
        n += 8;
    }
}
