//! The options of the command line: their names, in their order, and which of them are flags.

ghost use Rattle.std.specs.Prelude.{◌≡◌};
ghost use Rattle.fg_words.specs.Options.{is_flag, options, table};

use fg_base::Opt;

/// The options, and the drives behind them, in the order in which refusals look at them.
pub(crate) static TABLE: [Opt; 22] = [
    Opt::Program,
    Opt::Source,
    Opt::Max,
    Opt::Cut,
    Opt::Each,
    Opt::Quiet,
    Opt::Workers,
    Opt::Sets,
    Opt::Ways,
    Opt::Depth,
    Opt::Shift,
    Opt::Helpers,
    Opt::Stats,
    Opt::Unit,
    Opt::Number,
    Opt::Undirected,
    Opt::Input,
    Opt::Start,
    Opt::Nodes,
    Opt::Edges,
    Opt::Drives,
    Opt::Drive,
];

/// The options that are written with a name.
pub(crate) fn named_options() -> &'static [Opt]
    ensures { result.now ≡ options }
{
    &TABLE[..TABLE.len() - 1]
}

/// Whether the option has no value: it is on where it is there.
pub(crate) fn is_flag(option: Opt) -> bool
    ensures { result ≡ is_flag option }
{
    matches!(
        option,
        Opt::Each | Opt::Quiet | Opt::Helpers | Opt::Stats | Opt::Undirected
    )
}
