// The call that writes a Smart-Hello: the contents area is judged, then the room, and then the payload is written, section by section.
#![tactic(auto)]

ghost use Rattle.std.specs.Prelude.{◌+◌, ◌*◌, ◌^◌, ◌<◌, ◌≤◌, true, ◌≡◌, length};
ghost use Rattle.numbers.specs.After.{on_area};
ghost use Rattle.frame_copy.specs.Areas.{pasted};
ghost use Rattle.hello.specs.Pieces.{parameters_type, nickname_type};
ghost use Rattle.hello.specs.Writing.{sub_bytes};
ghost use Rattle.hello.specs.Area.{take_many};
ghost use Rattle.hello.specs.Calls.{area_written, write_call};
ghost use Rattle.hello_area.specs.Entries.{numbers_in, holder_for, take_sub, take_subs, reach, sub_at, subs_at};
ghost use Rattle.hello_ends.specs.Below.{entry_good};
ghost use Rattle.hello_entry.specs.Kinds.{has_section, count_at};
ghost use Rattle.hello_put.specs.Placing.{unopened, stepped_by, placed, stepped_all, placed_all};
ghost use Rattle.hello.specs.Reading.{refusal_of};
ghost use Rattle.hello_write.specs.Sections.{section_at, section_end, subs_in, front_in, at_first, walked, Follows, SizeIs};

use hello_put::Cursor;
use numbers::refusals::Refusal;

// The types of the sections.
const PARAMETERS: u8 = 22;

const SMART_MAC: u8 = 23;

const NICKNAME: u8 = 6;

const TREES: u8 = 8;

// The TLVs that hold sub-TLVs.
const CAPABILITY: u64 = 242;

const GENINFO: u64 = 251;

// The cursor of what is written, and the number of the contents area that comes next.
#[derive(Clone, Copy)]
pub struct Walk {
    pub cursor: Cursor,
    pub next: usize,
}

// The TLV that holds sub-TLVs of a type.
fn holder(kind: u8) -> u64
    ensures { (result ≡ holder_for kind) × (result < 256) }
{
    if kind == PARAMETERS {
        return GENINFO;
    }
    if kind == SMART_MAC {
        return GENINFO;
    }
    CAPABILITY
}

// A walk that is past the end of an area of so many numbers.
fn past(n: usize) -> Walk
    requires { 8 * n < 2 ^ 64 }
    ensures { (result.next ≡ n + 1) × ((result.cursor.start ≤ result.cursor.at) × (result.cursor.at ≤ 9 * result.next)) }
{
    Walk {
        cursor: Cursor {
            holder: 0,
            start: 0,
            at: 0,
        },
        next: n + 1,
    }
}

// Whether an entry is good.
fn entry_good<const KIND: u8>(area: &[u8], i: usize) -> bool
    requires { (has_section KIND ≡ true) × (i ≤ length (numbers_in area.now)) }
    ensures { result ≡ entry_good KIND (numbers_in area.now) i }
{
    match KIND {
        PARAMETERS => hello_ends::parameters_good(area, i),
        NICKNAME => hello_ends::nicknames_end(area, i) <= hello_ends::size(area),
        TREES => hello_ends::trees_good(area, i),
        _ => hello_ends::macs_good(area, i),
    }
}

// Judges so many entries of a section, with the cursor after them. The type is a constant: the compiler makes a loop of each, without a test
// of it.
fn entries_size<const KIND: u8>(area: &[u8], i: usize, m: usize, c: Cursor) -> Walk
    requires { (has_section KIND ≡ true) × ((i ≤ length (numbers_in area.now)) × ((c.start ≤ c.at) × (c.at ≤ 9 * i))) }
    ensures { ((result.next ≡ reach (take_many (take_sub KIND) m) (numbers_in area.now) i) × Follows (numbers_in area.now) c (subs_at KIND (numbers_in area.now) i m) result) × ((result.cursor.start ≤ result.cursor.at) × (result.cursor.at ≤ 9 * result.next)) }
{
    let n = hello_ends::size(area);
    let mut d = c;
    let mut at = i;
    for _ in 0..m {
        if !entry_good::<KIND>(area, at) {
            return past(n);
        }
        let e = hello_entry::measure(KIND, area, at);
        d = hello_put::step(d, holder(KIND), e.size);
        at = e.next;
    }
    Walk {
        cursor: d,
        next: at,
    }
}

// A section, behind its count.
fn section_size<const KIND: u8>(area: &[u8], w: Walk) -> Walk
    requires { (has_section KIND ≡ true) × ((w.cursor.start ≤ w.cursor.at) × (w.cursor.at ≤ 9 * w.next)) }
    ensures { ((result.next ≡ section_end KIND (numbers_in area.now) w.next) × Follows (numbers_in area.now) w.cursor (section_at KIND (numbers_in area.now) w.next) result) × ((result.cursor.start ≤ result.cursor.at) × (result.cursor.at ≤ 9 * result.next)) }
{
    let n = hello_ends::size(area);
    if n <= w.next {
        return past(n);
    }
    let m = hello_ends::number(area, w.next) as usize;
    entries_size::<KIND>(area, w.next + 1, m, w.cursor)
}

// The walk before the first section.
fn at_first() -> Walk
    ensures { result ≡ at_first }
{
    Walk {
        cursor: Cursor {
            holder: 0,
            start: 0,
            at: 0,
        },
        next: 0,
    }
}

// The four sections.
fn sections_size(area: &[u8]) -> Walk
    ensures { (result.next ≡ reach take_subs (numbers_in area.now) 0) × Follows (numbers_in area.now) unopened (subs_in (numbers_in area.now)) result }
{
    let a = section_size::<PARAMETERS>(area, at_first());
    let b = section_size::<NICKNAME>(area, a);
    let c = section_size::<TREES>(area, b);
    section_size::<SMART_MAC>(area, c)
}

// How long the payload of an area is, or what writing it is refused with before its room is judged.
fn judge(area: &[u8]) -> Result<usize, Refusal>
    ensures { (refusal_of result ≡ refusal_of (area_written area.now)) × SizeIs (numbers_in area.now) result }
{
    if area.len() % 8 != 0 {
        return Err(Refusal::HelloMalformed);
    }
    let w = sections_size(area);
    if w.next != hello_ends::size(area) {
        return Err(Refusal::HelloMalformed);
    }
    let p = hello_ends::number(area, 0);
    if 1 < p {
        return Err(Refusal::HelloMalformed);
    }
    if p < 1 {
        return Err(Refusal::ParametersMissing);
    }
    Ok(w.cursor.at)
}

// Puts the sub-TLV of an entry into an area.
fn put_sub<const KIND: u8>(area: &[u8], i: usize, m: usize, out: &mut [u8], at: usize)
    requires { ((has_section KIND ≡ true) × (m ≡ count_at KIND (numbers_in area.now) i)) × ((reach (take_sub KIND) (numbers_in area.now) i ≤ length (numbers_in area.now)) × (at + length (sub_bytes (sub_at KIND (numbers_in area.now) i)) ≤ length out.old)) }
    ensures { out.new ≡ pasted out.old at (sub_bytes (sub_at KIND (numbers_in area.now) i)) }
{
    match KIND {
        PARAMETERS => hello_entry::put_parameters(area, i, out, at),
        NICKNAME => hello_entry::put_nicknames(area, i, m, out, at),
        TREES => hello_entry::put_trees(area, i, m, out, at),
        _ => hello_entry::put_smart_mac(area, i, m, out, at),
    }
}

// Writes an entry as its sub-TLV, and gives the walk after it.
fn put_entry<const KIND: u8>(area: &[u8], i: usize, c: Cursor, out: &mut [u8]) -> Walk
    requires { (has_section KIND ≡ true) × ((reach (take_sub KIND) (numbers_in area.now) i ≤ length (numbers_in area.now)) × ((c.start ≤ c.at) × ((stepped_by c (sub_at KIND (numbers_in area.now) i)).at ≤ length out.old))) }
    ensures { ((result.cursor ≡ stepped_by c (sub_at KIND (numbers_in area.now) i)) × (result.next ≡ reach (take_sub KIND) (numbers_in area.now) i)) × (out.new ≡ placed out.old c (sub_at KIND (numbers_in area.now) i)) }
{
    let e = hello_entry::measure(KIND, area, i);
    let r = hello_put::open(out, c, holder(KIND), e.size);
    put_sub::<KIND>(area, i, e.count, out, r.at);
    let d = r.after;
    Walk {
        cursor: d,
        next: e.next,
    }
}

// So many entries of a section.
fn put_entries<const KIND: u8>(area: &[u8], i: usize, m: usize, c: Cursor, out: &mut [u8]) -> Walk
    requires { (has_section KIND ≡ true) × ((reach (take_many (take_sub KIND) m) (numbers_in area.now) i ≤ length (numbers_in area.now)) × ((c.start ≤ c.at) × ((stepped_all c (subs_at KIND (numbers_in area.now) i m)).at ≤ length out.old))) }
    ensures { ((result.cursor ≡ stepped_all c (subs_at KIND (numbers_in area.now) i m)) × (result.next ≡ reach (take_many (take_sub KIND) m) (numbers_in area.now) i)) × ((result.cursor.start ≤ result.cursor.at) × (out.new ≡ placed_all out.old c (subs_at KIND (numbers_in area.now) i m))) }
{
    let mut d = c;
    let mut at = i;
    for _ in 0..m {
        let w = put_entry::<KIND>(area, at, d, out);
        let b = w.cursor;
        d = b;
        at = w.next;
    }
    Walk {
        cursor: d,
        next: at,
    }
}

// A section, behind its count.
fn put_section<const KIND: u8>(area: &[u8], w: Walk, out: &mut [u8]) -> Walk
    requires { (has_section KIND ≡ true) × ((section_end KIND (numbers_in area.now) w.next ≤ length (numbers_in area.now)) × ((w.cursor.start ≤ w.cursor.at) × ((walked KIND (numbers_in area.now) w).cursor.at ≤ length out.old))) }
    ensures { (result ≡ walked KIND (numbers_in area.now) w) × ((result.cursor.start ≤ result.cursor.at) × (out.new ≡ placed_all out.old w.cursor (section_at KIND (numbers_in area.now) w.next))) }
{
    let m = hello_ends::number(area, w.next) as usize;
    put_entries::<KIND>(area, w.next + 1, m, w.cursor, out)
}

// The first two sections.
fn put_front(area: &[u8], out: &mut [u8]) -> Walk
    requires { (reach take_subs (numbers_in area.now) 0 ≤ length (numbers_in area.now)) × ((stepped_all unopened (subs_in (numbers_in area.now))).at ≤ length out.old) }
    ensures { (result ≡ walked nickname_type (numbers_in area.now) (walked parameters_type (numbers_in area.now) at_first)) × ((result.cursor.start ≤ result.cursor.at) × (out.new ≡ placed_all out.old unopened (front_in (numbers_in area.now)))) }
{
    let w = put_section::<PARAMETERS>(area, at_first(), out);
    put_section::<NICKNAME>(area, w, out)
}

// Writes the payload.
fn put_payload(area: &[u8], out: &mut [u8])
    requires { (reach take_subs (numbers_in area.now) 0 ≤ length (numbers_in area.now)) × ((stepped_all unopened (subs_in (numbers_in area.now))).at ≤ length out.old) }
    ensures { out.new ≡ placed_all out.old unopened (subs_in (numbers_in area.now)) }
{
    let b = put_front(area, out);
    let c = put_section::<TREES>(area, b, out);
    put_section::<SMART_MAC>(area, c, out);
}

// Writes the Smart-Hello of a contents area.
pub fn hello_write(contents: &[u8], out: &mut [u8]) -> Result<usize, Refusal>
    ensures { on_area result out.new ≡ write_call contents.now out.old }
{
    // No `?`: the edit missing_first changes an arm.
    let n = match judge(contents) {
        Ok(n) => n,
        Err(r) => return Err(r),
    };
    if out.len() < n {
        return Err(Refusal::AreaShort);
    }
    put_payload(contents, out);
    Ok(n)
}
