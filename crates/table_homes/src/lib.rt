// One pass over the table for learning: what is to be known of the records with an entry's label and address, collected by value.
#![tactic(auto)]

ghost use Rattle.std.specs.Prelude.{◌+◌, ◌*◌, ◌≤◌, ◌≡◌, true, length, drop, Some, None};
ghost use Rattle.numbers.specs.Tests.{pick};
ghost use Rattle.table.specs.Record.{unpacked, entry_matches, slot_that};
ghost use Rattle.table.specs.Slots.{slot_bytes, slots_of, or_else};
ghost use Rattle.table_records.specs.Entries.{Fits};
ghost use Rattle.table_homes.specs.Pass.{no_homes, with_slot, homes_to};
ghost use Rattle.table_homes.specs.Steps.{with_home, Counts, Sought};

use table::{Entry, SLOT_BYTES, Slot};

// What the pass sees of a pair's records: a configured one; the lowest learned one without the mark; the lowest learned one with the mark
// and the nickname of the entry; the lowest of all; how many there are.
#[derive(Clone, Copy)]
pub struct Homes {
    pub configured: bool,
    pub unmarked: Option<usize>,
    pub marked: Option<usize>,
    pub lowest: Option<usize>,
    pub count: usize,
}

// Nothing is seen yet.
fn no_homes() -> Homes
    ensures { result ≡ no_homes }
{
    Homes {
        configured: false,
        unmarked: None,
        marked: None,
        lowest: None,
        count: 0,
    }
}

// The first of two places.
pub fn or_else(p: Option<usize>, q: Option<usize>) -> Option<usize>
    ensures { result ≡ or_else p q }
{
    match p {
        Some(k) => Some(k),
        None => q,
    }
}

// This slot, if it passes.
fn here(k: usize, hit: bool) -> Option<usize>
    ensures { result ≡ pick hit (Some k) None }
{
    if hit {
        return Some(k);
    }
    None
}

// One record more.
fn with_home(k: usize, configured: bool, unmarked: bool, marked: bool, h: Homes) -> Homes
    requires { Counts k h }
    ensures { result ≡ with_home k configured unmarked marked h }
{
    let u = h.unmarked;
    let m = h.marked;
    let l = h.lowest;
    Homes {
        configured: h.configured | configured,
        unmarked: or_else(u, here(k, unmarked)),
        marked: or_else(m, here(k, marked)),
        lowest: or_else(l, Some(k)),
        count: h.count + 1,
    }
}

// With what slot k holds, a record of the pair.
fn with_pair(e: Entry, k: usize, s: Slot, h: Homes) -> Homes
    requires { Counts k h × (slot_that (entry_matches e.label e.mac) s ≡ true) }
    ensures { result ≡ with_slot e k s h }
{
    match s {
        Slot::Free => h,
        Slot::Spoilt => h,
        Slot::Learned(o) => with_home(
            k,
            false,
            !o.multihomed,
            (e.nickname == o.nickname) & o.multihomed,
            h,
        ),
        Slot::Configured(_) => with_home(k, true, false, false, h),
    }
}

// With slot i, whatever it holds.
fn with_slot(t: &[u8], i: usize, key: u64, kind: u64, label: u64, e: Entry, h: Homes) -> Homes
    requires { (slot_bytes * i + slot_bytes ≤ length t.now) × (Sought key kind label e × Counts i h) }
    ensures { result ≡ with_slot e i (unpacked (drop (slot_bytes * i) t.now)) h }
{
    let at = SLOT_BYTES * i;
    if !table_pairs::holds_at(t, at, key, kind, label, e.mac) {
        return h;
    }
    with_pair(e, i, table_records::unpack_held(t, at), h)
}

// All of the pair's records. A round over many slots is passed by where none has the key.
fn gathered(t: &[u8], key: u64, kind: u64, label: u64, e: Entry) -> Homes
    requires { Sought key kind label e }
    ensures { result ≡ homes_to e (slots_of t.now) t.now }
{
    let round_key = table_fields::round_key_of(e.mac);
    let n = t.len() / SLOT_BYTES;
    let mut h = no_homes();
    let mut i = 0;
    // A `while`: each step passes by the rounds without the key.
    while i < n {
        h = with_slot(t, i, key, kind, label, e, h);
        i = table_rounds::next_keyed(t, i + 1, round_key);
    }
    h
}

// What one pass over the table sees of the records with the entry's label and MAC.
pub fn homes_of(t: &[u8], e: Entry) -> Homes
    requires { Fits e }
    ensures { result ≡ homes_to e (slots_of t.now) t.now }
{
    let l = e.label;
    let mac = e.mac;
    let kind = table_records::kind_number(l);
    let label = table_records::label_number(l);
    if !table_pairs::pair_good(kind, label, mac) {
        return no_homes();
    }
    gathered(t, table_fields::key_of(mac), kind, label, e)
}
