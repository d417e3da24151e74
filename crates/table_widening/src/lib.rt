// Widening a table of document 01: each record is copied, and a zero byte follows it.
#![tactic(auto)]

ghost use Rattle.std.specs.Prelude.{◌+◌, ◌*◌, ◌≤◌, ◌≡◌, [], ◌∷◌, ◌++◌, length, take, drop};
ghost use Rattle.numbers.specs.After.{on_area};
ghost use Rattle.numbers.specs.Bytes.{bytes_of, laid};
ghost use Rattle.table.specs.Record.{record_bytes};
ghost use Rattle.table.specs.Slots.{slot_bytes};
ghost use Rattle.table.specs.Widening.{old_good, old_slots, wide, widened};
ghost use Rattle.frame_copy.specs.Areas.{pasted};
ghost use Rattle.table_widening.specs.Parts.{head_bytes};

use numbers::refusals::Refusal;
use table::{MOST_SLOTS, RECORD_BYTES, SLOT_BYTES};
use table_fields::layout;

// The most bytes of a table of document 01.
const MOST_OLD_BYTES: usize = RECORD_BYTES * MOST_SLOTS;

// Where the last eight bytes of a record begin, and those of a wider one.
const LAST_OFFSET: usize = RECORD_BYTES - layout::TAIL_OFFSET;

const WIDE_LAST_OFFSET: usize = SLOT_BYTES - layout::TAIL_OFFSET;

// How many values seven bytes have, and one; the byte that a record gains.
const SEVEN_BYTES: u64 = 0x100_0000_0000_0000;

const ONE_BYTE: u64 = 0x100;

const UNMARKED: u64 = 0;

// Refusal 2, by the old lengths.
fn old_good(old: &[u8]) -> bool
    ensures { result ≡ old_good old.now }
{
    let n = old.len();
    if !((1 <= n) & (n <= MOST_OLD_BYTES)) {
        return false;
    }
    n % RECORD_BYTES == 0
}

// Writes a number as eight bytes at an offset of the area.
fn put_head(v: u64, out: &mut [u8], at: usize)
    requires { at + head_bytes ≤ length out.old }
    ensures { out.new ≡ pasted out.old at (bytes_of head_bytes v) }
{
    let e = at + layout::TAIL_OFFSET;
    numbers::fill8(&mut out[at..e], v);
}

// Copies the record at an offset and puts a zero byte after it: its first eight bytes, and then its last seven with the zero byte, in two
// stores that share a byte.
fn widen_record(old: &[u8], from: usize, out: &mut [u8], at: usize)
    requires { (from + record_bytes ≤ length old.now) × (at + slot_bytes ≤ length out.old) }
    ensures { out.new ≡ pasted out.old at (take record_bytes (drop from old.now) ++ 0 ∷ []) }
{
    put_head(numbers::be8(old, from), out, at);
    let last = numbers::be8(old, from + LAST_OFFSET) % SEVEN_BYTES;
    put_head(last * ONE_BYTE + UNMARKED, out, at + WIDE_LAST_OFFSET);
}

// Every record, one after the other.
fn widen_slots(old: &[u8], out: &mut [u8])
    requires { slot_bytes * old_slots old.now ≤ length out.old }
    ensures { out.new ≡ laid (wide old.now) out.old }
{
    for i in 0..old.len() / RECORD_BYTES {
        widen_record(old, RECORD_BYTES * i, out, SLOT_BYTES * i);
    }
}

// Widens a table.
pub fn widen(old: &[u8], out: &mut [u8]) -> Result<u16, Refusal>
    ensures { on_area result out.new ≡ widened old.now out.old }
{
    if !old_good(old) {
        return Err(Refusal::TableLengthBad);
    }
    let m = SLOT_BYTES * (old.len() / RECORD_BYTES);
    if out.len() < m {
        return Err(Refusal::AreaShort);
    }
    widen_slots(old, out);
    Ok(m as u16)
}
