// Smart-Hellos: payloads and their contents. The definitions are in specs/.
#![tactic(auto)]

ghost use Rattle.hello.specs.Cases.{CasesHold};
ghost use Rattle.hello.specs.Claims.{WrittenHelloReads, ReadIsWritable, ReadHelloWrites, WrittenAreBytes, WrittenIsPlain, AreaIs};
ghost use Rattle.hello.specs.Calls.{CallsUndo, HelloRefusal};

// What holds of the definitions.
pub fn claims()
    ensures { CasesHold × WrittenHelloReads × ReadIsWritable × ReadHelloWrites × WrittenAreBytes × WrittenIsPlain × AreaIs × CallsUndo × HelloRefusal }
{}
