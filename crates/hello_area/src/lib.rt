// The contents area of a Smart-Hello, entry by entry: what the code that writes goes by. The definitions are in specs/.
#![tactic(auto)]

ghost use Rattle.hello_area.specs.Claims.{EntriesWritten};

// What holds of the definitions.
pub fn claims()
    ensures { EntriesWritten }
{}
