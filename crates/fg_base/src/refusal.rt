//! Why a job was refused, and the status that the program ends with.

ghost use Rattle.std.specs.Prelude.{◌≡◌, ◌≤◌, length};
ghost use Rattle.fg_base.specs.Options.{option_name};
ghost use Rattle.fg_base.specs.Refusal.{status_of};

use crate::{BadEdge, Dir};
use thiserror::Error;

/// An option or a positional word of the command line, in the order in which refusals look at them.
#[derive(Clone, Copy, PartialEq, Eq, Debug)]
pub enum Opt {
    Program,
    Source,
    Max,
    Cut,
    Each,
    Quiet,
    Workers,
    Sets,
    Ways,
    Depth,
    Shift,
    Helpers,
    Stats,
    Unit,
    Number,
    Undirected,
    Input,
    Start,
    Nodes,
    Edges,
    Drives,
    /// The drives behind the options.
    Drive,
}

impl Opt {
    /// The option's name as it is written behind `--`.
    pub fn name(self) -> &'static str
        ensures name { result.now ≡ option_name self }
        ensures short { length result.now ≤ 10 }
    {
        match self {
            Opt::Program => "program",
            Opt::Source => "source",
            Opt::Max => "max",
            Opt::Cut => "cut",
            Opt::Each => "each",
            Opt::Quiet => "quiet",
            Opt::Workers => "workers",
            Opt::Sets => "sets",
            Opt::Ways => "ways",
            Opt::Depth => "depth",
            Opt::Shift => "shift",
            Opt::Helpers => "helpers",
            Opt::Stats => "stats",
            Opt::Unit => "unit",
            Opt::Number => "number",
            Opt::Undirected => "undirected",
            Opt::Input => "input",
            Opt::Start => "start",
            Opt::Nodes => "nodes",
            Opt::Edges => "edges",
            Opt::Drives => "drives",
            Opt::Drive => "drive",
        }
    }
}

/// What is wrong with the words of the command line.
#[derive(Clone, Copy, PartialEq, Eq, Debug)]
pub enum WordFault {
    /// The words have no reading.
    Parse,
    /// The command isn't known.
    Command,
    /// The option is there and the command doesn't take it.
    Extra(Opt),
    /// The option isn't there and the command needs it.
    Missing(Opt),
    /// The value isn't in the option's range.
    Range(Opt),
}

/// Why a job ended without its result.
#[derive(Clone, Copy, PartialEq, Eq, Debug, Error)]
pub enum Refusal {
    #[error("memory")]
    Memory,
    #[error("words")]
    Words(WordFault),
    #[error("input failed")]
    InputFault,
    #[error("output failed")]
    OutputFault,
    /// The drive of this number failed.
    #[error("drive {0} failed")]
    DriveFault(u32),
    /// The line of this number, from 1, isn't an edge.
    #[error("line {0} not an edge")]
    BadLine(u64),
    /// The line of this number, from 1, names a vertex beyond the limit.
    #[error("line {0} id too large")]
    IdTooLarge(u64),
    /// With the line of this number, from 1, there are too many edges.
    #[error("line {0} too many edges")]
    TooManyEdges(u64),
    #[error("text too long")]
    TextTooLong,
    /// The drive of this number holds a page already.
    #[error("drive {0} not empty")]
    NotEmpty(u32),
    /// The drive of this number has so many pages, and needs so many.
    #[error("drive {0} has {1} pages, needs {2}")]
    ShortDrive(u32, u32, u32),
    #[error("drive {0} has no label")]
    NoLabel(u32),
    /// The drive of this number has the label of another.
    #[error("drive {0} is labelled {1}")]
    WrongDrive(u32, u32),
    /// The label of this drive doesn't agree with the number of drives, or with the label of drive 0.
    #[error("drive {0} label differs")]
    LabelDiffers(u32),
    #[error("bad header")]
    BadHeader,
    /// The image is of a version that isn't known.
    #[error("version {0} unknown")]
    BadVersion(u32),
    #[error("bad sections")]
    BadSections,
    /// The index of this direction is at fault at this byte.
    #[error("bad {0:?} index at {1}")]
    BadIndex(Dir, u64),
    /// The program's source, and the number of vertices that it isn't below.
    #[error("source {0} not below {1}")]
    BadSource(u32, u32),
    #[error("vertex {} target {}", .0.v, .0.found)]
    BadEdge(BadEdge),
    /// This page of the image has a byte other than 0 behind its section's end.
    #[error("page {0} padding")]
    BadPadding(u32),
    /// The in-list of this vertex isn't the turned out-entries that lead to it.
    #[error("vertex {0} not mirrored")]
    NotMirror(u32),
}

impl Refusal {
    /// The status that the program ends with, from 1 to 9.
    pub fn status(&self) -> u8
        ensures { result ≡ status_of self.now }
    {
        match self {
            Refusal::Memory => 1,
            Refusal::Words(_) => 2,
            Refusal::InputFault => 3,
            Refusal::OutputFault => 4,
            Refusal::DriveFault(_) => 5,
            Refusal::BadLine(_)
            | Refusal::IdTooLarge(_)
            | Refusal::TooManyEdges(_)
            | Refusal::TextTooLong => 6,
            Refusal::NotEmpty(_)
            | Refusal::ShortDrive(_, _, _)
            | Refusal::NoLabel(_)
            | Refusal::WrongDrive(_, _)
            | Refusal::LabelDiffers(_)
            | Refusal::BadHeader
            | Refusal::BadVersion(_)
            | Refusal::BadSections
            | Refusal::BadIndex(_, _) => 7,
            Refusal::BadSource(_, _) | Refusal::BadEdge(_) => 8,
            Refusal::BadPadding(_) | Refusal::NotMirror(_) => 9,
        }
    }
}
