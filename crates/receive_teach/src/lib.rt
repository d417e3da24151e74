// What a delivered frame teaches: its source with its label, its ingress nickname, the seconds of the settings and the mark of the R bit; a
// frame from our own nickname teaches nothing.
#![tactic(auto)]

ghost use Rattle.std.specs.Prelude.{◌^◌, ◌<◌, true, ◌≡◌, eqb};
ghost use Rattle.numbers.specs.Tests.{pick};
ghost use Rattle.numbers.specs.After.{on_table};
ghost use Rattle.table.specs.Record.{label_number};
ghost use Rattle.table_records.specs.Entries.{Fits};
ghost use Rattle.frame.specs.Settings.{settings_good, default_life};
ghost use Rattle.receive.specs.Deciding.{is_marked};
ghost use Rattle.frame_parse.specs.Meaning.{fields_in, PartsOf};
ghost use Rattle.receive_teach.specs.Meaning.{learned_of, taught_of};

use frame::{DEFAULT_LIFE_SECONDS, FIRST_BIT, SECOND_BIT, Settings};
use frame_parse::Parts;
use table::{Entry, Label, Learning};

// The seconds that a learned record gets.
fn life_of(seconds: u32) -> u32
    ensures { result ≡ pick (eqb seconds 0) default_life seconds }
{
    if seconds == 0 {
        return DEFAULT_LIFE_SECONDS;
    }
    seconds
}

// Whether the frame has the R bit set that the settings name.
pub fn is_marked(s: Settings, f: &[u8], p: Parts) -> bool
    requires { PartsOf f.now p }
    ensures { result ≡ is_marked s (fields_in f.now p).header }
{
    let h = p.header_offset;
    let first = (s.multihomed == FIRST_BIT) & (frame_fields::first_reserved(f, h) == 1);
    let second = (s.multihomed == SECOND_BIT) & (frame_fields::second_reserved(f, h) == 1);
    first | second
}

// The entry learned of a frame with this label, source, ingress nickname and mark.
pub fn learned_entry(s: Settings, label: Label, mac: u64, nickname: u64, mark: bool) -> Entry
    requires { (settings_good s ≡ true) × ((label_number label < 2 ^ 24) × ((mac < 2 ^ 48) × (nickname < 2 ^ 16))) }
    ensures { (result ≡ learned_of s label mac nickname mark) × Fits result }
{
    Entry {
        label: label,
        mac: mac,
        nickname: nickname as u16,
        confidence: s.confidence as u8,
        seconds: life_of(s.seconds) as u16,
        multihomed: mark,
    }
}

// Learns the entry, unless its nickname is our own: such a frame teaches nothing.
pub fn teach(nickname: u32, e: Entry, table: &mut [u8]) -> Learning
    requires { Fits e }
    ensures { on_table result table.new ≡ taught_of nickname e table.old }
{
    if e.nickname as u32 == nickname {
        return Learning::Kept;
    }
    table_learning::learn(e, table)
}
