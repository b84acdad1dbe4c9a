//! The commands and the vertex programs by their names, with the options that each takes and needs.

ghost use Rattle.std.specs.Prelude.{◌≡◌};
ghost use Rattle.fg_words.specs.CommandLine.{command_of, program_of, is_of_drive_runs, is_of_engines, is_of_runs, is_of_large_runs};
ghost use Rattle.fg_words.specs.CommandLine.{is_taken_by, is_needed_by, has_use_for, depends_on};

use fg_base::Opt;

/// A command that is built.
#[derive(Clone, Copy, PartialEq, Eq, Debug)]
pub(crate) enum Command {
    Build,
    Run,
    Ref,
    Check,
    Gen,
    Large,
}

/// Whether each run takes the option, also one in memory.
fn is_of_runs(option: Opt) -> bool
    ensures { result ≡ is_of_runs option }
{
    matches!(
        option,
        Opt::Program | Opt::Source | Opt::Max | Opt::Cut | Opt::Each | Opt::Quiet | Opt::Drive
    )
}

/// Whether the option is one of the engine that a run goes through.
fn is_of_engines(option: Opt) -> bool
    ensures { result ≡ is_of_engines option }
{
    matches!(
        option,
        Opt::Workers | Opt::Sets | Opt::Ways | Opt::Depth | Opt::Shift | Opt::Helpers
    )
}

/// Whether a run over drives takes the option, and no other command does.
fn is_of_drive_runs(option: Opt) -> bool
    ensures { result ≡ is_of_drive_runs option }
{
    option == Opt::Stats
}

/// Whether a run on generated edges takes the option, beside those of the engine.
fn is_of_large_runs(option: Opt) -> bool
    ensures { result ≡ is_of_large_runs option }
{
    matches!(
        option,
        Opt::Program
            | Opt::Source
            | Opt::Max
            | Opt::Cut
            | Opt::Unit
            | Opt::Undirected
            | Opt::Start
            | Opt::Nodes
            | Opt::Edges
            | Opt::Drives
    )
}

impl Command {
    /// The command of this name.
    pub(crate) fn named(word: &str) -> Option<Command>
        ensures { result ≡ command_of word.now }
    {
        match word {
            "build" => Some(Command::Build),
            "run" => Some(Command::Run),
            "ref" => Some(Command::Ref),
            "check" => Some(Command::Check),
            "gen" => Some(Command::Gen),
            "large" => Some(Command::Large),
            _ => None,
        }
    }

    /// Whether the command takes the option, at some program.
    pub(crate) fn takes(self, option: Opt) -> bool
        ensures { result ≡ is_taken_by self option }
    {
        match self {
            Command::Build => matches!(
                option,
                Opt::Unit | Opt::Number | Opt::Undirected | Opt::Input | Opt::Drive
            ),
            Command::Run => {
                is_of_runs(option) || is_of_engines(option) || is_of_drive_runs(option)
            }
            Command::Ref => is_of_runs(option),
            Command::Check => option == Opt::Drive,
            Command::Gen => matches!(option, Opt::Start | Opt::Nodes | Opt::Edges),
            Command::Large => is_of_large_runs(option) || is_of_engines(option),
        }
    }

    /// Whether the command needs the option, at every program.
    pub(crate) fn needs(self, option: Opt) -> bool
        ensures { result ≡ is_needed_by self option }
    {
        match self {
            Command::Build | Command::Check => option == Opt::Drive,
            Command::Run | Command::Ref => matches!(option, Opt::Program | Opt::Drive),
            Command::Gen => matches!(option, Opt::Start | Opt::Nodes | Opt::Edges),
            Command::Large => matches!(option, Opt::Program | Opt::Start | Opt::Nodes | Opt::Edges),
        }
    }
}

/// The name of a vertex program that is built.
#[derive(Clone, Copy, PartialEq, Eq, Debug)]
pub(crate) enum ProgramName {
    Bfs,
    Sssp,
    Wcc,
    Core,
    Rank,
}

impl ProgramName {
    /// The program of this name.
    pub(crate) fn named(word: &str) -> Option<ProgramName>
        ensures { result ≡ program_of word.now }
    {
        match word {
            "bfs" => Some(ProgramName::Bfs),
            "sssp" => Some(ProgramName::Sssp),
            "wcc" => Some(ProgramName::Wcc),
            "core" => Some(ProgramName::Core),
            "rank" => Some(ProgramName::Rank),
            _ => None,
        }
    }

    /// Whether the program has a use for the option, which every program has for all but `source` and `cut`.
    pub(crate) fn has_use_for(self, option: Opt) -> bool
        ensures { result ≡ has_use_for self option }
    {
        match self {
            ProgramName::Bfs | ProgramName::Sssp => option != Opt::Cut,
            ProgramName::Wcc | ProgramName::Core => !matches!(option, Opt::Source | Opt::Cut),
            ProgramName::Rank => option != Opt::Source,
        }
    }

    /// Whether the program can't do without the option.
    pub(crate) fn depends_on(self, option: Opt) -> bool
        ensures { result ≡ depends_on self option }
    {
        match self {
            ProgramName::Bfs | ProgramName::Sssp => option == Opt::Source,
            ProgramName::Wcc | ProgramName::Core | ProgramName::Rank => false,
        }
    }
}
