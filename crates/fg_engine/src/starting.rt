//! The states with which a run begins.

ghost use Rattle.std.specs.Prelude.{◌≡◌, ℕ, IfOk, List};
ghost use Rattle.fg_build.specs.Answers.{OpenedFits};
ghost use Rattle.fg_build.specs.ToldImage.{graph_over};
ghost use Rattle.fg_model.specs.Iteration.{AreStates};
ghost use Rattle.fg_model.specs.Run.{opening_states};

use fg_base::{Dir, Memory, VState};
use fg_build::Opened;
use fg_model::Program;
use std::alloc::Global;

/// The states with which a run on this image begins. They depend on the degrees alone, so they are those of the graph
/// of any bytes with these degrees.
pub(crate) fn opening_states<P: Program>(
    alloc: Global,
    program: &P,
    opened: &Opened,
) -> Result<Vec<VState>, Memory>
    requires { OpenedFits opened.now }
    ensures states { IfOk result (λ states. (image : List ℕ) →
        states.items ≡ opening_states (P.rules program.now) (graph_over opened.now image)) }
    ensures are_states { IfOk result (λ states. (image : List ℕ) → AreStates (graph_over opened.now image).n states.items) }
{
    let index = &opened.index;
    let mut states = Vec::with_capacity(alloc, index.n() as usize)?;
    for v in 0..index.n() {
        let outs = index.degree(Dir::Out, v);
        let ins = index.degree(Dir::In, v);
        states.push(program.init(v, outs, ins))?;
    }
    Ok(states)
}
