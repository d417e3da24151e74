// The cursor of a Smart-Hello that is written: the TLV that is open, and the place of the next sub-TLV.
#![tactic(auto)]

ghost use Rattle.std.specs.Prelude.{◌+◌, ◌-◌, ◌*◌, ◌^◌, ◌<◌, ◌≤◌, ◌≡◌, length, set};
ghost use Rattle.frame_copy.specs.Areas.{pasted};
ghost use Rattle.hello.specs.Writing.{head_of};
ghost use Rattle.hello_put.specs.Placing.{takes, stepped, opening, opened};

const CAPABILITY: u64 = 242;

// Router ID and flags of a TLV 242; flags and application of a TLV 251.
const CAPABILITY_HEAD: usize = 5;

const GENINFO_HEAD: usize = 3;

// Type and length of a TLV, and the most bytes of its value.
const TLV_HEAD: usize = 2;

const LONGEST_VALUE: usize = 255;

// The type of the TLV that is open (0: none), where it starts, and where the next sub-TLV goes if it takes it. The type is a whole word, so that
// a cursor is copied without the bytes between its fields.
#[derive(Clone, Copy)]
pub struct Cursor {
    pub holder: u64,
    pub start: usize,
    pub at: usize,
}

// Where a sub-TLV goes, and the cursor after it.
#[derive(Clone, Copy)]
pub struct Room {
    pub at: usize,
    pub after: Cursor,
}

// The bytes of a TLV's value in front of its sub-TLVs.
fn head_size(h: u64) -> usize
    ensures { (result ≡ length (head_of h)) × (result ≤ 5) }
{
    if h == CAPABILITY {
        return CAPABILITY_HEAD;
    }
    GENINFO_HEAD
}

// The TLV that is open takes a sub-TLV.
fn takes_it(c: Cursor, h: u64, size: usize) -> bool
    requires { (c.start ≤ c.at) × ((c.at < 3 * 2 ^ 62) × (size ≤ 255)) }
    ensures { result ≡ takes c h size }
{
    if c.holder != h {
        return false;
    }
    c.at + size <= c.start + (TLV_HEAD + LONGEST_VALUE)
}

// The cursor after a sub-TLV.
pub fn step(c: Cursor, h: u64, size: usize) -> Cursor
    requires { (c.start ≤ c.at) × ((c.at < 3 * 2 ^ 62) × (size ≤ 255)) }
    ensures { result ≡ stepped c h size }
{
    if takes_it(c, h, size) {
        return Cursor {
            holder: h,
            start: c.start,
            at: c.at + size,
        };
    }
    Cursor {
        holder: h,
        start: c.at,
        at: c.at + (TLV_HEAD + head_size(h)) + size,
    }
}

// A new TLV up to its sub-TLVs, as one number.
fn open_tlv(out: &mut [u8], at: usize, h: u64, size: usize)
    requires { (at + (2 + length (head_of h)) ≤ length out.old) × ((h < 256) × (length (head_of h) + size ≤ 255)) }
    ensures { out.new ≡ pasted out.old at (opening h size) }
{
    let n = size as u64;
    if h == CAPABILITY {
        frame_copy::put_number(
            h * 0x1_0000_0000_0000 + (5 + n) * 0x100_0000_0000,
            7,
            out,
            at,
        );
        return;
    }
    frame_copy::put_number(h * 0x1_0000_0000 + (3 + n) * 0x100_0000 + 1, 5, out, at);
}

// The length byte of the TLV from start to at counts a sub-TLV more.
fn grow_tlv(out: &mut [u8], start: usize, at: usize, size: usize)
    requires { ((start ≤ at) × (2 ≤ size)) × ((at + size ≤ start + 257) × (at + size ≤ length out.old)) }
    ensures { out.new ≡ set out.old (start + 1) (at + size - (start + 2)) }
{
    let n = at + size - (start + TLV_HEAD);
    out[start + 1] = n as u8;
}

// Makes the room of a sub-TLV: the length byte counts it, or a new TLV is opened.
pub fn open(out: &mut [u8], c: Cursor, h: u64, size: usize) -> Room
    requires { (((c.start ≤ c.at) × (h < 256)) × ((2 ≤ size) × (length (head_of h) + size ≤ 255))) × ((stepped c h size).at ≤ length out.old) }
    ensures { ((result.after ≡ stepped c h size) × (result.at + size ≡ result.after.at)) × (out.new ≡ opened out.old c h size) }
{
    if takes_it(c, h, size) {
        grow_tlv(out, c.start, c.at, size);
        return Room {
            at: c.at,
            after: Cursor {
                holder: h,
                start: c.start,
                at: c.at + size,
            },
        };
    }
    open_tlv(out, c.at, h, size);
    let at = c.at + (TLV_HEAD + head_size(h));
    Room {
        at: at,
        after: Cursor {
            holder: h,
            start: c.at,
            at: at + size,
        },
    }
}
