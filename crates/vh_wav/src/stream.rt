//! Where a rendering's frames come from, and where they go.

ghost use Rattle.std.specs.Prelude.{◌≡◌, ◌≤◌, ◌+◌, ◌*◌, ◌++◌, ℕ, List, [], length, drop, OnOk, OnErr};
ghost use Rattle.vh_files.specs.Causes.{Rose};
ghost use Rattle.vh_num.specs.Frames.{Frame, frames_of};
ghost use Rattle.vh_wav.specs.Streams.{ArePulled};

use vh_files::Failed;

/// An input whose frames are read from its first on, and an output to which frames are added. Samples are in units
/// of 2^-23 of full scale; in a slice of n frames the n samples of the first channel come first.
pub trait Frames {
    /// How many channels both have.
    ghost channels: { Self → ℕ };

    /// How many frames may be added in all, and how many were.
    ghost room: { Self → ℕ };

    ghost pushed: { Self → ℕ };

    /// The most frames of one call.
    ghost max: { Self → ℕ };

    /// The input has these frames left. Where the implementation doesn't tell, it has so of no list.
    ghost reads: { Self → List Frame → Type 0 };

    /// These frames were added. Where the implementation doesn't tell, it has so of no list.
    ghost wrote: { Self → List Frame → Type 0 };

    /// The frames of the call that failed to add them. There are none at first.
    ghost cut: { Self → List Frame };

    /// How often a read failed, and an addition.
    ghost pull_faults: { Self → ℕ };

    ghost push_faults: { Self → ℕ };

    /// What all else means that is meant by it.
    ghost Rest: { Type 0 };

    /// All else that is meant by it, which no call changes.
    ghost rest: { Self → Rest };

    /// Takes the next n frames, and silence past the last.
    fn pull(&mut self, n: usize, out: &mut [i32]) -> Result<(), Failed>
        requires most { n ≤ max self.old }
        requires room { length out.old ≡ channels self.old * n }
        ensures frames { (input : List Frame) → reads self.old input → OnOk result (ArePulled (channels self.old) input n out.new) }
        ensures left { (input : List Frame) → reads self.old input → OnOk result (reads self.new (drop n input)) }
        ensures long { length out.new ≡ length out.old }
        ensures wrote { (frames : List Frame) → wrote self.old frames → wrote self.new frames }
        ensures pushed { pushed self.new ≡ pushed self.old }
        ensures cut { cut self.new ≡ cut self.old }
        ensures channels { channels self.new ≡ channels self.old }
        ensures space { room self.new ≡ room self.old }
        ensures max { max self.new ≡ max self.old }
        ensures rest { rest self.new ≡ rest self.old }
        ensures failed { OnErr result (Rose (pull_faults self.old) (pull_faults self.new)) }
        ensures later { pull_faults self.old ≤ pull_faults self.new }
        ensures push_faults { push_faults self.new ≡ push_faults self.old };

    /// Adds n frames. After a failure nothing more may be added.
    fn push(&mut self, n: usize, frames: &[i32]) -> Result<(), Failed>
        requires some { 1 ≤ n }
        requires most { n ≤ max self.old }
        requires long { length frames.now ≡ channels self.old * n }
        requires whole { cut self.old ≡ [] }
        requires room { pushed self.old + n ≤ room self.old }
        ensures wrote { (before : List Frame) → wrote self.old before → OnOk result (wrote self.new (before ++ frames_of (channels self.old) frames.now)) }
        ensures kept { (before : List Frame) → wrote self.old before → OnErr result (wrote self.new before) }
        ensures pushed { OnOk result (pushed self.new ≡ pushed self.old + n) }
        ensures still { OnErr result (pushed self.new ≡ pushed self.old) }
        ensures uncut { OnOk result (cut self.new ≡ []) }
        ensures cut { OnErr result (cut self.new ≡ frames_of (channels self.old) frames.now) }
        ensures reads { (input : List Frame) → reads self.old input → reads self.new input }
        ensures channels { channels self.new ≡ channels self.old }
        ensures space { room self.new ≡ room self.old }
        ensures max { max self.new ≡ max self.old }
        ensures rest { rest self.new ≡ rest self.old }
        ensures failed { OnErr result (Rose (push_faults self.old) (push_faults self.new)) }
        ensures later { push_faults self.old ≤ push_faults self.new }
        ensures pull_faults { pull_faults self.new ≡ pull_faults self.old };
}
