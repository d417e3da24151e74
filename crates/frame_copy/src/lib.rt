// Copying bytes into an area, and parts of a slice.
#![tactic(auto)]

ghost use Rattle.std.specs.Prelude.{◌+◌, ◌≤◌, ◌≡◌, length, take, drop};
ghost use Rattle.numbers.specs.Bytes.{bytes_of};
ghost use Rattle.frame.specs.Formats.{longest_frame};
ghost use Rattle.frame.specs.Front.{address_bytes};
ghost use Rattle.frame_copy.specs.Areas.{pasted};

use frame::{ADDRESS_BYTES, LONGEST_FRAME};

// Copies all of src into out from an offset on, by the byte.
pub fn copy_at(src: &[u8], out: &mut [u8], at: usize)
    requires { at + length src.now ≤ length out.old }
    ensures { out.new ≡ pasted out.old at src.now }
{
    for (i, b) in src.iter().enumerate() {
        out[at + i] = *b;
    }
}

// The same of a part of a frame by way of an array: since that overlaps neither, the compiler makes one block move of both loops and
// needs no array. Where the length is known, the move is a load and a store. `copy_from_slice` tests whether the two overlap, and a copy
// of 16 bytes takes 1.25 times as long.
pub fn copy_block(src: &[u8], out: &mut [u8], at: usize)
    requires { (at + length src.now ≤ length out.old) × (length src.now ≤ longest_frame) }
    ensures { out.new ≡ pasted out.old at src.now }
{
    let mut block = [0u8; LONGEST_FRAME];
    for (i, b) in src.iter().enumerate() {
        block[i] = *b;
    }
    for j in 0..src.len() {
        out[at + j] = block[j];
    }
}

// Copies a part of len bytes: the first k, which it always has, as a block, and the few that may follow by the byte.
pub fn copy_part(f: &[u8], start: usize, len: usize, k: usize, out: &mut [u8], at: usize)
    requires { ((k ≤ len) × (k ≤ longest_frame)) × ((start + len ≤ length f.now) × (at + len ≤ length out.old)) }
    ensures { out.new ≡ pasted out.old at (take len (drop start f.now)) }
{
    copy_block(part(f, start, k), out, at);
    copy_at(part(f, start + k, len - k), out, at + k);
}

// The part of len bytes from start on.
pub fn part<'a>(f: &'a [u8], start: usize, len: usize) -> &'a [u8]
    requires { start + len ≤ length f.now }
    ensures { (result.now ≡ take len (drop start f.now)) × (length result.now ≡ len) }
{
    &f[start..start + len]
}

// Writes the n low bytes of a number into out from an offset on.
pub fn put_number(v: u64, n: usize, out: &mut [u8], at: usize)
    requires { at + n ≤ length out.old }
    ensures { out.new ≡ pasted out.old at (bytes_of n v) }
{
    let e = at + n;
    numbers::fill(&mut out[at..e], v);
}

// Writes an address, as moves of four bytes and two.
pub fn put_address(v: u64, out: &mut [u8], at: usize)
    requires { at + address_bytes ≤ length out.old }
    ensures { out.new ≡ pasted out.old at (bytes_of address_bytes v) }
{
    let e = at + ADDRESS_BYTES;
    numbers::fill6(&mut out[at..e], v);
}
