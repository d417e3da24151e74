// What is promised of the definitions as a whole. The one function here has no code: its contract names every theorem of every crate,
// and its proof is theirs.
#![tactic(auto)]

ghost use Rattle.numbers.specs.Claims.{Blocks, Maps};
ghost use Rattle.table.specs.Claims.{UnpackPacked, PackUnpacked, LearningKeepsApart, AgeingKeepsApart, KeptWritesNothing, AgeingRefusal, WideningRefusal, LearningLeavesAlone, AgeingLeavesAlone, WidenedSame, UnmarkedAsBefore};
ghost use Rattle.table.specs.Examples.{HomesExamples};
ghost use Rattle.table.specs.FreeSlot.{FreeSlotFound};
ghost use Rattle.flush.specs.Claims.{FlushExact, FlushingKeepsApart, FlushRefusal, FlushingLeavesAlone};
ghost use Rattle.flush.specs.Padding.{PaddedFlush};
ghost use Rattle.flush.specs.Validity.{Validity};
ghost use Rattle.portions.specs.Claims.{PortionExact, PortionsWhole, PortionsReach, PortionsEnd, PortionRefusal, PortionKeepsApart, PortionLeavesAlone};
ghost use Rattle.portions.specs.Between.{Later, Passed};
ghost use Rattle.flush_write.specs.Cases.{WriterCases};
ghost use Rattle.flush_write.specs.Claims.{WriterExact, WriterClears, WriterLength, WriterCalls};
ghost use Rattle.models.specs.Claims.{FullModel, VlanOnly};
ghost use Rattle.models.specs.Example.{NotPromised};
ghost use Rattle.why.specs.Cases.{WhyCases};
ghost use Rattle.why.specs.Claims.{WhyExact, WhyFirst, WhyPlaces, WhyRefusals};
ghost use Rattle.frame.specs.Claims.{HeaderLocal, LabelLocal, LabelsGood};
ghost use Rattle.convert.specs.Claims.{ReadsSame, ExpandCompacted, CompactExpanded, ConvertRefusals, SendsExactly, RoomForCompaction, SendRoom, ControlNeverCompact};
ghost use Rattle.convert.specs.Chosen.{ChosenSent};
ghost use Rattle.receive.specs.Claims.{ReadRefusal, ReadingKeepsApart, ReadsParsed, ReadingLeavesAlone, ReadFlushExact, PaddedRead, NoMapNoChange, SmartPort};
ghost use Rattle.port_map.specs.Claims.{SearchInverse};
ghost use Rattle.port_map_pairs.specs.Pairs.{PairBytes};
ghost use Rattle.receive.specs.Order.{ReadsExactly};
ghost use Rattle.ingress.specs.Cases.{MapCases};
ghost use Rattle.ingress.specs.Claims.{IngressRefusal, MapRoundTrip};
ghost use Rattle.watch.specs.Claims.{StopNeverShortened, StopRunsOut, SendingWhileStopped, RefusedWatchStays, WatchCases};
ghost use Rattle.report.specs.Claims.{ReportAddsUp, ReportRising, ReportCase, DigitsReadBack, ReportFits};
ghost use Rattle.hello.specs.Cases.{CasesHold};
ghost use Rattle.hello.specs.Claims.{WrittenHelloReads, ReadIsWritable, ReadHelloWrites, WrittenAreBytes, WrittenIsPlain, AreaIs};
ghost use Rattle.hello.specs.Calls.{CallsUndo, HelloRefusal};
ghost use Rattle.hello_area.specs.Claims.{EntriesWritten};
ghost use Rattle.promises.specs.Cases.{Cases, ControlCases};
ghost use Rattle.promises.specs.Claims.{RefusalChangesNothing, HomesStayApart, SpoiltStays, ConfiguredStays};
ghost use Rattle.promises.specs.Example.{InterchangeExample};
ghost use Rattle.promises.specs.Homes.{NoneAsBefore, MarkedRead};
ghost use Rattle.promises.specs.Interchange.{Interchange};
ghost use Rattle.promises.specs.Lives.{LifeAsBefore, OtherLivesStay};

pub fn claims()
    ensures demands { Interchange × InterchangeExample × ExpandCompacted × CompactExpanded × RefusalChangesNothing × Validity × FlushExact × ReadFlushExact × PaddedFlush × PaddedRead × ReadsExactly × HomesStayApart × WidenedSame × UnmarkedAsBefore × NoneAsBefore × HomesExamples × MarkedRead × FreeSlotFound × SpoiltStays × ConfiguredStays × SendsExactly × RoomForCompaction × SendRoom × ChosenSent × ControlNeverCompact × LifeAsBefore × OtherLivesStay × SearchInverse × NoMapNoChange × MapRoundTrip × SmartPort × Cases × ControlCases × MapCases }
    ensures calls { ReadRefusal × FlushRefusal × AgeingRefusal × WideningRefusal × ConvertRefusals × IngressRefusal × ReadingKeepsApart × FlushingKeepsApart × AgeingKeepsApart × LearningKeepsApart × ReadingLeavesAlone × FlushingLeavesAlone × AgeingLeavesAlone × LearningLeavesAlone }
    ensures portions { PortionExact × PortionsWhole × PortionsReach × PortionsEnd × Later × Passed × PortionRefusal × PortionKeepsApart × PortionLeavesAlone }
    ensures models { FullModel × VlanOnly × NotPromised }
    ensures reasons { WhyExact × WhyFirst × WhyPlaces × WhyRefusals × WhyCases }
    ensures laws { Blocks × Maps × UnpackPacked × PackUnpacked × KeptWritesNothing × HeaderLocal × LabelLocal × LabelsGood × ReadsSame × ReadsParsed }
    ensures writing { WriterExact × WriterClears × WriterLength × WriterCalls × WriterCases }
    ensures reporting { ReportAddsUp × ReportRising × ReportCase × DigitsReadBack × ReportFits }
    ensures watching { StopNeverShortened × StopRunsOut × SendingWhileStopped × RefusedWatchStays × WatchCases }
    ensures hellos { WrittenHelloReads × ReadHelloWrites × ReadIsWritable × WrittenAreBytes × WrittenIsPlain × AreaIs × CallsUndo × HelloRefusal × EntriesWritten × CasesHold }
    ensures pairs { PairBytes }
{}
