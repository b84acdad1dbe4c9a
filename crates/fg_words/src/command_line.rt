//! What the words say of each option, and which job that makes.

ghost use Rattle.std.specs.Prelude.{◌≡◌, find};
ghost use Rattle.fg_words.specs.CommandLine.{fault_of, is_beyond, is_crowded, is_extra, is_given, is_missing};
ghost use Rattle.fg_words.specs.CommandLine.{is_useful, is_vital, line_of, number_in, program_in};
ghost use Rattle.fg_base.specs.declared.refusal.Opt.TheVariants.{Ways};
ghost use Rattle.fg_words.specs.Options.{table};
ghost use Rattle.fg_words.specs.Reading.{rows_in, value_of};
ghost use Rattle.fg_words.specs.Words.{build_from, job_from, pick_of, recipe_of};

use crate::command::{Command, ProgramName};
use crate::jobs::{Job, Pick, Recipe};
use crate::number::{is_past, number_within, wide_number_within};
use crate::options::TABLE;
use crate::reading::{count_drives, value_of};
use crate::said::Said;
use clap::ArgMatches;
use fg_base::limits::{
    MAX_DEPTH, MAX_DRIVES, MAX_ENTRIES, MAX_FRAMES, MAX_SETS, MAX_SHIFT, MAX_UNIT, MAX_VERTICES,
    MAX_WAYS, MAX_WORKERS,
};
use fg_base::{Opt, WordFault};

/// The cut of `rank` where the words give none.
const DEFAULT_CUT: u64 = 1048;

/// The workers of a run where the words give none.
const DEFAULT_WORKERS: u32 = 4;

/// The sets of pages of a cache where the words give none.
const DEFAULT_SETS: u32 = 64;

/// The pages of a set where the words give none.
const DEFAULT_WAYS: u32 = 8;

/// The loads that a drive's queue holds where the words don't say.
const DEFAULT_DEPTH: u32 = 64;

/// The shift from a vertex to its block where the words give none.
const DEFAULT_SHIFT: u32 = 10;

/// The pages of a unit where the words give none.
const DEFAULT_UNIT: u32 = 16;

/// What the words say of each option.
#[derive(Clone, Copy, PartialEq, Eq, Debug)]
pub(crate) struct CommandLine {
    pub(crate) program: Said<ProgramName>,
    pub(crate) source: Said<u32>,
    pub(crate) max: Said<u32>,
    pub(crate) cut: Said<u64>,
    pub(crate) each: bool,
    pub(crate) quiet: bool,
    pub(crate) workers: Said<u32>,
    pub(crate) sets: Said<u32>,
    pub(crate) ways: Said<u32>,
    /// Whether sets times ways is too large.
    pub(crate) crowded: bool,
    pub(crate) depth: Said<u32>,
    pub(crate) shift: Said<u32>,
    pub(crate) helpers: bool,
    pub(crate) stats: bool,
    pub(crate) unit: Said<u32>,
    pub(crate) number: Said<u64>,
    pub(crate) undirected: bool,
    /// Whether a file is named as the input.
    pub(crate) input: bool,
    pub(crate) start: Said<u64>,
    pub(crate) nodes: Said<u32>,
    pub(crate) edges: Said<u32>,
    /// How many drives are made in memory.
    pub(crate) made: Said<u32>,
    /// How many drives are named.
    pub(crate) drives: usize,
}

/// The program that the words name.
fn program_in(found: &ArgMatches<'_>) -> Said<ProgramName>
    ensures { result ≡ program_in (rows_in found.now) }
{
    match value_of(found, Opt::Program) {
        Some(word) => Said::found(ProgramName::named(word)),
        None => Said::Nothing,
    }
}

/// The number that the words give the option, within its range.
fn number_in(found: &ArgMatches<'_>, option: Opt, least: u32, most: u32) -> Said<u32>
    ensures { result ≡ number_in least most option (rows_in found.now) }
{
    match value_of(found, option) {
        Some(word) => Said::found(number_within(word, least, most)),
        None => Said::Nothing,
    }
}

/// The same for numbers of 64 bits.
fn wide_number_in(found: &ArgMatches<'_>, option: Opt, least: u64, most: u64) -> Said<u64>
    ensures { result ≡ number_in least most option (rows_in found.now) }
{
    match value_of(found, option) {
        Some(word) => Said::found(wide_number_within(word, least, most)),
        None => Said::Nothing,
    }
}

/// Whether so many sets of the ways that the words give are more frames than a cache has. Ways out of their range count
/// too, since the product is looked at before them.
fn is_crowded(found: &ArgMatches<'_>, sets: u32) -> bool
    ensures { result ≡ is_crowded sets (value_of Ways (rows_in found.now)) }
{
    match value_of(found, Opt::Ways) {
        Some(word) => is_past(MAX_FRAMES, sets, word),
        None => u64::from(sets) * u64::from(DEFAULT_WAYS) > u64::from(MAX_FRAMES),
    }
}

impl CommandLine {
    /// What the words say in which `clap` found this.
    pub(crate) fn read(found: &ArgMatches<'_>) -> CommandLine
        ensures { result ≡ line_of (rows_in found.now) }
    {
        let sets = number_in(found, Opt::Sets, 1, MAX_SETS);
        CommandLine {
            program: program_in(found),
            source: number_in(found, Opt::Source, 0, u32::MAX),
            max: number_in(found, Opt::Max, 1, u32::MAX),
            cut: wide_number_in(found, Opt::Cut, 1, u64::MAX),
            each: value_of(found, Opt::Each).is_some(),
            quiet: value_of(found, Opt::Quiet).is_some(),
            workers: number_in(found, Opt::Workers, 1, MAX_WORKERS),
            sets,
            ways: number_in(found, Opt::Ways, 1, MAX_WAYS),
            crowded: is_crowded(found, sets.value_or(DEFAULT_SETS)),
            depth: number_in(found, Opt::Depth, 1, MAX_DEPTH),
            shift: number_in(found, Opt::Shift, 0, MAX_SHIFT),
            helpers: value_of(found, Opt::Helpers).is_some(),
            stats: value_of(found, Opt::Stats).is_some(),
            unit: number_in(found, Opt::Unit, 1, MAX_UNIT),
            number: wide_number_in(found, Opt::Number, 0, u64::MAX),
            undirected: value_of(found, Opt::Undirected).is_some(),
            input: value_of(found, Opt::Input).is_some(),
            start: wide_number_in(found, Opt::Start, 0, u64::MAX),
            nodes: number_in(found, Opt::Nodes, 1, MAX_VERTICES),
            edges: number_in(found, Opt::Edges, 0, MAX_ENTRIES),
            made: number_in(found, Opt::Drives, 1, MAX_DRIVES),
            drives: count_drives(found),
        }
    }

    /// Whether the option is there.
    fn is_given(&self, option: Opt) -> bool
        ensures { result ≡ is_given self.now option }
    {
        match option {
            Opt::Program => self.program.is_there(),
            Opt::Source => self.source.is_there(),
            Opt::Max => self.max.is_there(),
            Opt::Cut => self.cut.is_there(),
            Opt::Each => self.each,
            Opt::Quiet => self.quiet,
            Opt::Workers => self.workers.is_there(),
            Opt::Sets => self.sets.is_there(),
            Opt::Ways => self.ways.is_there(),
            Opt::Depth => self.depth.is_there(),
            Opt::Shift => self.shift.is_there(),
            Opt::Helpers => self.helpers,
            Opt::Stats => self.stats,
            Opt::Unit => self.unit.is_there(),
            Opt::Number => self.number.is_there(),
            Opt::Undirected => self.undirected,
            Opt::Input => self.input,
            Opt::Start => self.start.is_there(),
            Opt::Nodes => self.nodes.is_there(),
            Opt::Edges => self.edges.is_there(),
            Opt::Drives => self.made.is_there(),
            Opt::Drive => self.drives > 0,
        }
    }

    /// Whether the option's value isn't in its range.
    fn is_beyond(&self, option: Opt) -> bool
        ensures { result ≡ is_beyond self.now option }
    {
        match option {
            Opt::Program => self.program.is_out_of_range(),
            Opt::Source => self.source.is_out_of_range(),
            Opt::Max => self.max.is_out_of_range(),
            Opt::Cut => self.cut.is_out_of_range(),
            Opt::Workers => self.workers.is_out_of_range(),
            Opt::Sets => self.sets.is_out_of_range() || self.crowded,
            Opt::Ways => self.ways.is_out_of_range(),
            Opt::Depth => self.depth.is_out_of_range(),
            Opt::Shift => self.shift.is_out_of_range(),
            Opt::Unit => self.unit.is_out_of_range(),
            Opt::Number => self.number.is_out_of_range(),
            Opt::Start => self.start.is_out_of_range(),
            Opt::Nodes => self.nodes.is_out_of_range(),
            Opt::Edges => self.edges.is_out_of_range(),
            Opt::Drives => self.made.is_out_of_range(),
            Opt::Drive => self.drives > MAX_DRIVES as usize,
            _ => false,
        }
    }

    /// Whether the program that is named has a use for the option; one that isn't known may have.
    fn is_useful(&self, option: Opt) -> bool
        ensures { result ≡ is_useful self.now.program option }
    {
        match self.program {
            Said::Value(program) => program.has_use_for(option),
            Said::Nothing | Said::OutOfRange => true,
        }
    }

    /// Whether the program that is named depends on the option.
    fn is_vital(&self, option: Opt) -> bool
        ensures { result ≡ is_vital self.now.program option }
    {
        match self.program {
            Said::Value(program) => program.depends_on(option),
            Said::Nothing | Said::OutOfRange => false,
        }
    }

    /// Whether the option is there and isn't taken.
    fn is_extra(&self, command: Command, option: Opt) -> bool
        ensures { result ≡ is_extra command self.now option }
    {
        self.is_given(option) && !(command.takes(option) && self.is_useful(option))
    }

    /// Whether the option isn't there and is required.
    fn is_missing(&self, command: Command, option: Opt) -> bool
        ensures { result ≡ is_missing command self.now option }
    {
        !self.is_given(option) && (command.needs(option) || self.is_vital(option))
    }

    /// The first option that is there and isn't taken.
    fn first_extra(&self, command: Command) -> Option<Opt>
        ensures { result ≡ find (is_extra command self.now) table }
    {
        TABLE
            .iter()
            .copied()
            .find(|option| self.is_extra(command, *option))
    }

    /// The first option that is required and isn't there.
    fn first_missing(&self, command: Command) -> Option<Opt>
        ensures { result ≡ find (is_missing command self.now) table }
    {
        TABLE
            .iter()
            .copied()
            .find(|option| self.is_missing(command, *option))
    }

    /// The first option whose value isn't in its range.
    fn first_beyond(&self) -> Option<Opt>
        ensures { result ≡ find (is_beyond self.now) table }
    {
        TABLE.iter().copied().find(|option| self.is_beyond(*option))
    }

    /// What is wrong with the words at this command: the first option that isn't taken, or else the first that is
    /// missing, or else the first that isn't in its range.
    pub(crate) fn fault(&self, command: Command) -> Option<WordFault>
        ensures { result ≡ fault_of command self.now }
    {
        if let Some(option) = self.first_extra(command) {
            return Some(WordFault::Extra(option));
        }
        if let Some(option) = self.first_missing(command) {
            return Some(WordFault::Missing(option));
        }
        self.first_beyond().map(WordFault::Range)
    }

    /// The program that is named, with its source or its cut: there is one where nothing is wrong with the words.
    fn pick(&self) -> Option<Pick>
        ensures { result ≡ pick_of self.now }
    {
        let Said::Value(program) = self.program else {
            return None;
        };
        match (program, self.source) {
            (ProgramName::Bfs, Said::Value(source)) => Some(Pick::Bfs(source)),
            (ProgramName::Sssp, Said::Value(source)) => Some(Pick::Sssp(source)),
            (ProgramName::Wcc, _) => Some(Pick::Wcc),
            (ProgramName::Core, _) => Some(Pick::Core),
            (ProgramName::Rank, _) => Some(Pick::Rank(self.cut.value_or(DEFAULT_CUT))),
            _ => None,
        }
    }

    /// How edges are generated, where the words say all of it: they do where nothing is wrong with them.
    fn recipe(&self) -> Option<Recipe>
        ensures { result ≡ recipe_of self.now }
    {
        let Said::Value(start) = self.start else {
            return None;
        };
        let Said::Value(nodes) = self.nodes else {
            return None;
        };
        let Said::Value(edges) = self.edges else {
            return None;
        };
        Some(Recipe {
            start,
            nodes,
            edges,
            undirected: self.undirected,
        })
    }

    /// The job of a build.
    fn build_job(&self) -> Job
        ensures { result ≡ build_from self.now }
    {
        Job::Build {
            unit: self.unit.value_or(DEFAULT_UNIT),
            number: self.number.value_or(0),
            undirected: self.undirected,
        }
    }

    /// The job of a run on drives, where a program is picked.
    fn run_job(&self) -> Option<Job>
        ensures { result ≡ job_from Command.Run self.now }
    {
        match self.pick() {
            Some(pick) => Some(Job::Run {
                pick,
                max: self.max.value_or(u32::MAX),
                each: self.each,
                quiet: self.quiet,
                workers: self.workers.value_or(DEFAULT_WORKERS),
                sets: self.sets.value_or(DEFAULT_SETS),
                ways: self.ways.value_or(DEFAULT_WAYS),
                depth: self.depth.value_or(DEFAULT_DEPTH),
                shift: self.shift.value_or(DEFAULT_SHIFT),
                helpers: self.helpers,
                stats: self.stats,
            }),
            None => None,
        }
    }

    /// The job of a run in memory, where a program is picked.
    fn ref_job(&self) -> Option<Job>
        ensures { result ≡ job_from Command.Ref self.now }
    {
        match self.pick() {
            Some(pick) => Some(Job::Ref {
                pick,
                max: self.max.value_or(u32::MAX),
                each: self.each,
                quiet: self.quiet,
            }),
            None => None,
        }
    }

    /// The job of generating, where the words say how.
    fn gen_job(&self) -> Option<Job>
        ensures { result ≡ job_from Command.Gen self.now }
    {
        match self.recipe() {
            Some(recipe) => Some(Job::Gen {
                start: recipe.start,
                nodes: recipe.nodes,
                edges: recipe.edges,
            }),
            None => None,
        }
    }

    /// The job of a run on generated edges, where a program is picked and the words say how.
    fn large_job(&self) -> Option<Job>
        ensures { result ≡ job_from Command.Large self.now }
    {
        let Some(pick) = self.pick() else {
            return None;
        };
        let Some(recipe) = self.recipe() else {
            return None;
        };
        Some(Job::Large {
            pick,
            max: self.max.value_or(u32::MAX),
            workers: self.workers.value_or(DEFAULT_WORKERS),
            sets: self.sets.value_or(DEFAULT_SETS),
            ways: self.ways.value_or(DEFAULT_WAYS),
            depth: self.depth.value_or(DEFAULT_DEPTH),
            shift: self.shift.value_or(DEFAULT_SHIFT),
            helpers: self.helpers,
            unit: self.unit.value_or(DEFAULT_UNIT),
            undirected: recipe.undirected,
            start: recipe.start,
            nodes: recipe.nodes,
            edges: recipe.edges,
            drives: self.made.value_or(1),
        })
    }

    /// The job of the command: there is one where nothing is wrong with the words.
    pub(crate) fn job(&self, command: Command) -> Option<Job>
        ensures { result ≡ job_from command self.now }
    {
        match command {
            Command::Build => Some(self.build_job()),
            Command::Run => self.run_job(),
            Command::Ref => self.ref_job(),
            Command::Check => Some(Job::Check),
            Command::Gen => self.gen_job(),
            Command::Large => self.large_job(),
        }
    }
}
