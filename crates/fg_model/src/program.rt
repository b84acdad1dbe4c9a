//! Vertex programs.

ghost use Rattle.std.specs.Prelude.{◌≡◌, ◌+◌, ◌<◌, ◌^◌, true};
ghost use Rattle.fg_model.specs.Program.{Rules, IsLawful};

use fg_base::{Dir, Entry, Need, Tally, VState, Value};

/// A vertex program: nine pure functions. An iteration runs each vertex that is awake, which gives it a new state and
/// sends a message along each entry of the needed lists; then each vertex folds the messages to it into its state.
pub trait Program {
    /// The nine functions on whole numbers. Everything that is said of a program is said of them.
    ghost rules: { Self → Rules };

    /// The lists that a run goes over.
    fn need(&self) -> Need
        ensures { result ≡ (rules self.now).need };

    /// The opening state of a vertex, from the lengths of its two lists.
    fn init(&self, v: u32, outs: u32, ins: u32) -> VState
        ensures { result ≡ (rules self.now).init v outs ins };

    /// Begins the run of an active vertex: its own new state, and the carry that its messages are made from. One run
    /// is counted.
    fn begin<T: Tally>(&self, phase: u64, v: u32, s: VState, tally: &mut T) -> (VState, u64)
        requires awake { (rules self.now).wake phase s ≡ true }
        requires room { T.runs tally.old + 1 < 2 ^ 64 }
        ensures value { result ≡ (rules self.now).begin phase v s }
        ensures runs { T.runs tally.new ≡ T.runs tally.old + 1 }
        ensures entries { T.entries tally.new ≡ T.entries tally.old };

    /// The message along one entry of the list `dir`. One entry is counted.
    fn edge<T: Tally>(&self, carry: u64, dir: Dir, entry: Entry, tally: &mut T) -> u64
        requires room { T.entries tally.old + 1 < 2 ^ 64 }
        ensures value { result ≡ (rules self.now).edge carry dir entry }
        ensures runs { T.runs tally.new ≡ T.runs tally.old }
        ensures entries { T.entries tally.new ≡ T.entries tally.old + 1 };

    /// The state with one message folded in.
    fn receive(&self, s: VState, m: u64) -> VState
        ensures { result ≡ (rules self.now).receive s m };

    /// One message in place of two: folding it in does what folding in both does.
    fn combine(&self, x: u64, y: u64) -> u64
        ensures { result ≡ (rules self.now).combine x y };

    /// Whether a vertex with this state is active.
    fn wake(&self, phase: u64, s: VState) -> bool
        ensures { result ≡ (rules self.now).wake phase s };

    /// The phase that a vertex with this state waits for.
    fn bid(&self, s: VState) -> Option<u64>
        ensures { result ≡ (rules self.now).bid s };

    /// What is printed of a vertex.
    fn show(&self, s: VState) -> Value
        ensures { result ≡ (rules self.now).show s };

    /// Two messages may be folded in either order, or as the one that they combine to, and every function stays below 2^64.
    ghost lawful: { (program : Self) → IsLawful (rules program) };
}
