//! Laws of the definitions.

ghost use Rattle.vh_meaning.specs.Laws.{
  FramesThatFit,
  FramesFit,
  Interchange,
  Applied,
  ValuesFromKept,
  OneSample,
  NoLater,
  LaneWhileNoneOpen,
  LastWithoutLane,
  LaneWhileOpen,
  OnlyItsParameter,
  EachIsAnswered,
  AnyOrderOfWires,
  SilenceWithoutOut,
};
ghost use Rattle.vh_meaning.specs.Block.{StandsAtFirst, OneBlock, OutFromFrames, SeenFromKept, LastFromKept};
ghost use Rattle.vh_meaning.specs.Worked.{Worked};

/// Frames that fit together are those of the recursion on the graph.
pub fn frames_that_fit()
    ensures { FramesThatFit }
{}

/// The frames of the recursion on the graph fit together.
pub fn frames_fit()
    ensures { FramesFit }
{}

/// States and frames that form a trace are those of the world, whatever the order in which the nodes ran.
pub fn interchange()
    ensures { Interchange }
{}

/// What is kept, with further entries applied one by one, stands for the longer list.
pub fn applied()
    ensures { Applied }
{}

/// The values at a sample follow from what is kept and from the entries behind it.
pub fn values_from_kept()
    ensures { ValuesFromKept }
{}

/// A sample's entries, applied one by one, and then a step of each node, carry what is kept to the next sample.
pub fn one_sample()
    ensures { OneSample }
{}

/// Before the first sample the classes' starts and the first values stand for every input.
pub fn stands_at_first()
    ensures { StandsAtFirst }
{}

/// States and frames that form a trace over a block carry what is kept over it, and the frames are the world's.
pub fn one_block()
    ensures { OneBlock }
{}

/// What reaches the output hangs on the frames of the nodes alone.
pub fn out_from_frames()
    ensures { OutFromFrames }
{}

/// What is kept behind a sample shows what is seen there.
pub fn seen_from_kept()
    ensures { SeenFromKept }
{}

/// What is kept after the entries at the length shows what is seen at the end.
pub fn last_from_kept()
    ensures { LastFromKept }
{}

/// A frame depends on no later input and on no later entry.
pub fn no_later()
    ensures { NoLater }
{}

/// While no gesture is open, a parameter with a lane is the lane.
pub fn lane_while_none_open()
    ensures { LaneWhileNoneOpen }
{}

/// A parameter without a lane has the last value that it was given.
pub fn last_without_lane()
    ensures { LastWithoutLane }
{}

/// While a gesture is open, a parameter with a lane has what was performed last since the first of the gestures that
/// overlap began, or the lane's value where that one began.
pub fn lane_while_open()
    ensures { LaneWhileOpen }
{}

/// An entry on one parameter changes no other's value.
pub fn only_its_parameter()
    ensures { OnlyItsParameter }
{}

/// Each message has its answer, in the entries' order and at its sample.
pub fn each_is_answered()
    ensures { EachIsAnswered }
{}

/// The order of the wires doesn't matter.
pub fn any_order_of_wires()
    ensures { AnyOrderOfWires }
{}

/// Without a wire to the output a rendering is silence.
pub fn silence_without_out()
    ensures { SilenceWithoutOut }
{}

/// Two editors whose gestures overlap on a lane, a gesture that holds a lane still, a message between two performs, a
/// mix that is clamped, an aux bus, and what lies past the end of the input.
pub fn worked()
    ensures { Worked }
{}
