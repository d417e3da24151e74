// What the TLVs of a message name, part by part: a block or a number alone is an interval, a bit map lies in one.
#![tactic(auto)]

ghost use Rattle.std.specs.Prelude.{true, ◌≡◌, ℕ, ◌+◌, ◌^◌, ◌≤◌, ◌<◌, length, drop};
ghost use Rattle.numbers.specs.Numberings.{in_map};
ghost use Rattle.flush_parts.specs.Named.{fine_naming};
ghost use Rattle.flush_parts.specs.Parts.{Narrow, span_for, low_for, past_for};

use numbers::Numbering;

// How TLVs name numbers: a type of blocks, a type of single numbers, where there is one a type of bit maps, and the numbering of all.
#[derive(Clone, Copy)]
pub struct Naming {
    pub blocks: u8,
    pub singles: u8,
    pub mapped: bool,
    pub maps: u8,
    pub numbering: Numbering,
}

// How a message names fine-grained labels.
pub fn fine_naming() -> Naming
    ensures { (result ≡ fine_naming) × Narrow result.numbering }
{
    Naming {
        blocks: 3,
        singles: 4,
        mapped: true,
        maps: 5,
        numbering: flush_members::FINES,
    }
}

// The most bytes that the value of a TLV has.
const MOST_VALUE: usize = 255;

// How many bytes a part takes: a block, or a number alone.
pub fn span_for(block: bool, w: Numbering) -> usize
    requires { Narrow w }
    ensures { (result ≡ span_for block w) × (0 < result) }
{
    if block {
        return 2 * w.size;
    }
    w.size
}

// The lowest number of the part at an offset.
pub fn low_at(v: &[u8], at: usize, block: bool, w: Numbering) -> u64
    requires { Narrow w × (at + span_for block w ≤ length v.now) }
    ensures { (result ≡ low_for block w (drop at v.now)) × (result < 2 ^ 48) }
{
    let n = flush_members::number_at(v, at, w);
    if block {
        return numbers::at_least(w.low, n);
    }
    n
}

// The number after the highest of the part at an offset.
pub fn past_at(v: &[u8], at: usize, block: bool, w: Numbering) -> u64
    requires { Narrow w × (at + span_for block w ≤ length v.now) }
    ensures { (result ≡ past_for block w (drop at v.now)) × (result ≤ 2 ^ 48) }
{
    if block {
        let n = flush_members::number_at(v, at + w.size, w);
        return numbers::at_most(w.high, n) + 1;
    }
    flush_members::number_at(v, at, w) + 1
}

// The number that a bit map starts at: none of its numbers is below.
pub fn map_low(v: &[u8], w: Numbering) -> u64
    requires { Narrow w × (w.size ≤ length v.now) }
    ensures { (result < 2 ^ 48) × ((x : ℕ) → in_map w x v.now ≡ true → result ≤ x) }
{
    flush_members::number_at(v, 0, w)
}

// A number that all numbers of a bit map are below.
pub fn map_past(v: &[u8], w: Numbering) -> u64
    requires { Narrow w × (w.size ≤ length v.now) }
    ensures { (result < 2 ^ 52) × ((x : ℕ) → in_map w x v.now ≡ true → x < result) }
{
    let n = v.len() - w.size;
    if MOST_VALUE < n {
        return w.high + 1;
    }
    flush_members::number_at(v, 0, w) + 8 * n as u64
}
