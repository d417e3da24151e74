// The call that reads a Smart-Hello: one pass judges the payload and counts, then the room is judged, and then the contents are written,
// a section for each type of sub-TLV.
#![tactic(auto)]

ghost use Rattle.std.specs.Prelude.{◌+◌, ◌≤◌, ◌≡◌, leb, length};
ghost use Rattle.numbers.specs.After.{on_area};
ghost use Rattle.numbers.specs.Bytes.{laid};
ghost use Rattle.hello.specs.Reading.{items};
ghost use Rattle.hello.specs.Calls.{read_call};
ghost use Rattle.hello_judge.specs.Counting.{walked, nothing, counting};
ghost use Rattle.hello_read.specs.Sections.{all_words};

use hello_judge::Counts;
use numbers::refusals::Refusal;

// Whether the numbers of four sections fit, with the count of each.
fn sections_fit(room: usize, a: usize, b: usize, c: usize, d: usize) -> bool
    ensures { result ≡ leb (4 + (a + (b + (c + d)))) room }
{
    if room < 4 {
        return false;
    }
    let w = room - 4;
    if w < a {
        return false;
    }
    let x = w - a;
    if x < b {
        return false;
    }
    let y = x - b;
    if y < c {
        return false;
    }
    d <= y - c
}

// Writes the sections, and gives where they end.
fn put_sections(l: &[u8], c: Counts, out: &mut [u8]) -> usize
    requires { (c ≡ walked counting nothing (items l.now)) × (length (all_words (items l.now)) ≤ length out.old) }
    ensures { (out.new ≡ laid (all_words (items l.now)) out.old) × (result ≡ length (all_words (items l.now))) }
{
    let n = 8 + 8 * c.parameter_numbers;
    let t = n + (8 + 8 * c.nickname_numbers);
    let m = t + (8 + 8 * c.tree_numbers);
    hello_fill::geninfo_sections(l, c.parameters, c.macs, out, 0, m);
    hello_fill::capability_sections(l, c.nicknames, c.trees, out, n, t);
    m + (8 + 8 * c.mac_numbers)
}

// Reads a Smart-Hello into a contents area.
pub fn hello_read(payload: &[u8], contents: &mut [u8]) -> Result<usize, Refusal>
    ensures { on_area result contents.new ≡ read_call payload.now contents.old }
{
    let c = hello_judge::count(payload);
    hello_judge::refusal(c)?;
    let room = contents.len() / 8;
    if !sections_fit(
        room,
        c.parameter_numbers,
        c.nickname_numbers,
        c.tree_numbers,
        c.mac_numbers,
    ) {
        return Err(Refusal::AreaShort);
    }
    let e = put_sections(payload, c, contents);
    Ok(e)
}
