//! What a graph, a vertex program and a run are, and the run itself.
//!
//! Below stands `fg_base`. `specs/` has the definitions that everything above is measured against: a graph (`Graph`), a
//! program (`Program`), the run of one vertex (`VertexRun`), one iteration (`Iteration`), a whole run (`Run`) and what
//! a watch is shown of it (`Watch`). They know no page, drive or thread. Above, whatever runs one iteration implements
//! `Engine`, and `run_engine` makes a whole run of it.
#![tactic(auto)]

mod edges;
mod engine;
mod graph;
mod iteration;
mod mail;
mod plain;
mod program;
mod run;
mod stand;
mod vec_watch;
mod watch;

pub use edges::{Edges, Pair};
pub use engine::Engine;
pub use graph::Graph;
pub use iteration::{Counts, IterFault, Iteration};
pub use mail::Mail;
pub use plain::plain_run;
pub use program::Program;
pub use run::{End, RunFault, run_engine};
pub use stand::is_some_active;
pub use vec_watch::{Shown, VecWatch};
pub use watch::{IterLine, Watch};
