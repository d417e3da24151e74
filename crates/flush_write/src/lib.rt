// Writing an Address Flush. The definitions are in specs/.
#![tactic(auto)]

ghost use Rattle.flush_write.specs.Cases.{WriterCases};
ghost use Rattle.flush_write.specs.Claims.{WriterExact, WriterClears, WriterLength, WriterCalls};

// "at most 255 nicknames and 255 blocks of each kind".
pub const MOST_LISTED: usize = 255;

// What holds of the writer's definitions.
pub fn claims()
    ensures { WriterCases × WriterExact × WriterClears × WriterLength × WriterCalls }
{}
