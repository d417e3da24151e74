// Reading a frame. The definitions are in specs/.
#![tactic(auto)]

ghost use Rattle.receive.specs.Claims.{ReadRefusal, ReadingKeepsApart, ReadsParsed, ReadingLeavesAlone, ReadFlushExact, PaddedRead, NoMapNoChange, SmartPort};
ghost use Rattle.receive.specs.Order.{ReadsExactly};

use table::{Label, Learning};

// The answer of reading. Onward is document 01's own term: the frame is for another switch. What was learned and the length come first,
// so that they lie where a refusal's number and a count do: the compiler then keeps the answer in registers.
#[derive(Clone, Copy)]
pub enum ReadAnswer {
    Onward,
    Delivered {
        learning: Learning,
        length: u16,
        label: Label,
    },
    OtherChannel,
    Flushed(u16),
}

// The channel header: its length, the offsets of its words, and in these, from the low bit on, protocol 12 bits and version 4, and ERR 4.
pub const CHANNEL_BYTES: usize = 6;

pub const CHANNEL_PROTOCOL_OFFSET: usize = 2;

pub const CHANNEL_ERROR_OFFSET: usize = 4;

pub const CHANNEL_PROTOCOL_VALUES: u64 = 0x1000;

pub const CHANNEL_VERSION_BIT: u64 = 0x1000;

pub const CHANNEL_VERSION_VALUES: u64 = 0x10;

pub const CHANNEL_ERROR_VALUES: u64 = 0x10;

// The protocol of Address Flush.
pub const FLUSH_PROTOCOL: u64 = 0x009;

// What holds of the definition of reading.
pub fn claims()
    ensures { ReadRefusal × ReadingKeepsApart × ReadsParsed × ReadingLeavesAlone × ReadFlushExact × PaddedRead × ReadsExactly × NoMapNoChange × SmartPort }
{}
