// Lists of blocks: whether one can be written, and writing one, as it is or in TLVs. A list has numbers of k bytes, the message the
// `size` low ones of each.
#![tactic(auto)]

ghost use Rattle.std.specs.Prelude.{◌+◌, ◌*◌, ◌<◌, ◌≤◌, ◌≡◌, length, take, drop};
ghost use Rattle.numbers.specs.Bytes.{num, bytes_of};
ghost use Rattle.frame_copy.specs.Areas.{pasted};
ghost use Rattle.flush_write.specs.Writing.{block_good, block_bytes, blocks_bytes, tlv_bytes, tlvs_bytes};
ghost use Rattle.flush_write.specs.Areas.{block_in, blocks_in};
ghost use Rattle.flush_write_lists.specs.Widths.{Item, Filling, list_good};

use flush_write::MOST_LISTED;

// The bytes of a MAC in its list, and in the message; how many values two bytes have.
const MAC_ITEM: usize = 8;

const MAC_SIZE: usize = 6;

const TWO_BYTES: u64 = 0x1_0000;

// A block's two numbers.
#[derive(Clone, Copy)]
pub struct Ends {
    pub start: u64,
    pub end: u64,
}

// The number of k bytes at a place; the three widths that a list has are read without a loop.
fn number_in(l: &[u8], at: usize, k: usize) -> u64
    requires { Item k × (at + k ≤ length l.now) }
    ensures { result ≡ num (take k (drop at l.now)) }
{
    if k == 2 {
        return numbers::be2(l, at);
    }
    if k == 4 {
        return numbers::be4(l, at);
    }
    numbers::be8(l, at)
}

// The start and the end of the block at a place; those of two bytes by one load.
fn block_in(l: &[u8], at: usize, k: usize) -> Ends
    requires { Item k × (at + 2 * k ≤ length l.now) }
    ensures { (result.start ≡ num (take k (drop at l.now))) × (result.end ≡ num (take k (drop (at + k) l.now))) }
{
    if k == 2 {
        let both = numbers::be4(l, at);
        return Ends {
            start: both / TWO_BYTES,
            end: both % TWO_BYTES,
        };
    }
    Ends {
        start: number_in(l, at, k),
        end: number_in(l, at + k, k),
    }
}

// Whether the block at a place lies within low and high, and its end is not below its start.
fn block_good(l: &[u8], at: usize, k: usize, low: u64, high: u64) -> bool
    requires { Item k × (at + 2 * k ≤ length l.now) }
    ensures { result ≡ block_good low high (block_in k (drop at l.now)) }
{
    let b = block_in(l, at, k);
    (low <= b.start) & ((b.start <= b.end) & (b.end <= high))
}

// Whether a list can be written.
pub fn list_good(l: &[u8], k: usize, low: u64, high: u64) -> bool
    requires { Item k }
    ensures { result ≡ list_good k low high l.now }
{
    let n = 2 * k;
    if l.len() % n != 0 {
        return false;
    }
    if MOST_LISTED < l.len() / n {
        return false;
    }
    let mut good = true;
    for i in 0..l.len() / n {
        good = good & block_good(l, i * n, k, low, high);
    }
    good
}

// Writes the low bytes of the number of k bytes at a place; a MAC's, the last six of its eight, as moves of four bytes and two.
fn put_item(l: &[u8], from: usize, k: usize, size: usize, out: &mut [u8], at: usize)
    requires { (Item k × (from + k ≤ length l.now)) × (at + size ≤ length out.old) }
    ensures { out.new ≡ pasted out.old at (bytes_of size (num (take k (drop from l.now)))) }
{
    if (k == MAC_ITEM) & (size == MAC_SIZE) {
        frame_copy::put_address(numbers::be6(l, from + (MAC_ITEM - MAC_SIZE)), out, at);
        return;
    }
    frame_copy::put_number(number_in(l, from, k), size, out, at);
}

// Writes the block at a place.
fn put_block(l: &[u8], from: usize, k: usize, size: usize, out: &mut [u8], at: usize)
    requires { (Item k × (from + 2 * k ≤ length l.now)) × (at + 2 * size ≤ length out.old) }
    ensures { out.new ≡ pasted out.old at (block_bytes size (block_in k (drop from l.now))) }
{
    put_item(l, from, k, size, out, at);
    put_item(l, from + k, k, size, out, at + size);
}

// Writes the blocks of a list, one after the other.
pub fn put_blocks(l: &[u8], k: usize, size: usize, out: &mut [u8], at: usize)
    requires { (Item k × (size ≤ 6)) × (at + length (blocks_bytes size (blocks_in k l.now)) ≤ length out.old) }
    ensures { out.new ≡ pasted out.old at (blocks_bytes size (blocks_in k l.now)) }
{
    let n = 2 * k;
    let m = 2 * size;
    let mut from = 0;
    let mut to = at;
    // A `while`: as `for i in ..` with `i * n` and `at + i * m` it took 15 percent longer for long lists.
    while n <= l.len() - from {
        put_block(l, from, k, size, out, to);
        from += n;
        to += m;
    }
}

// Writes a TLV with the blocks of a list, and gives where it ends.
fn put_tlv(l: &[u8], k: usize, size: usize, kind: u64, out: &mut [u8], at: usize) -> usize
    requires { ((Item k × (size ≤ 6)) × ((kind < 256) × (length (blocks_bytes size (blocks_in k l.now)) < 256))) × (at + length (tlv_bytes kind (blocks_bytes size (blocks_in k l.now))) ≤ length out.old) }
    ensures { (out.new ≡ pasted out.old at (tlv_bytes kind (blocks_bytes size (blocks_in k l.now)))) × (result ≡ at + length (tlv_bytes kind (blocks_bytes size (blocks_in k l.now)))) }
{
    let n = l.len() / (2 * k) * (2 * size);
    frame_copy::put_number(kind * 0x100 + n as u64, 2, out, at);
    put_blocks(l, k, size, out, at + 2);
    at + 2 + n
}

// Writes a list as TLVs of a type, each with as much of the list as fills it, and gives where they end.
pub fn put_tlvs(
    l: &[u8],
    k: usize,
    size: usize,
    full: usize,
    kind: u64,
    out: &mut [u8],
    at: usize,
) -> usize
    requires { (Filling k size full × (kind < 256)) × (at + length (tlvs_bytes kind size (blocks_in k l.now)) ≤ length out.old) }
    ensures { (out.new ≡ pasted out.old at (tlvs_bytes kind size (blocks_in k l.now))) × (result ≡ at + length (tlvs_bytes kind size (blocks_in k l.now))) }
{
    let mut from = 0;
    let mut to = at;
    // A `while`: the last TLV takes less of the list than the others.
    while 2 * k <= l.len() - from {
        let n = full.min(l.len() - from);
        to = put_tlv(frame_copy::part(l, from, n), k, size, kind, out, to);
        from += n;
    }
    to
}
