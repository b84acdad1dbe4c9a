//! Where a wave ends.

ghost use Rattle.std.specs.Prelude.{ℕ, ◌+◌, ◌<◌, ◌≤◌, List, length};
ghost use Rattle.fg_task.specs.Blocks.{Blocks};
ghost use Rattle.fg_wave.specs.Cutting.{AreWeights, IsBounded, weight_of};

/// The place where the wave ends that begins at `from`: the farthest one up to which the blocks weigh at most `bound`, and behind the
/// first block in any case.
pub(crate) fn wave_end(weights: &[u64], from: usize, bound: u64) -> usize
    requires { from < length weights.now }
    ensures past { from < result }
    ensures inside { result ≤ length weights.now }
    ensures light { from + 1 < result → weight_of weights.now from result ≤ bound }
    ensures farthest { result < length weights.now → bound < weight_of weights.now from (result + 1) }
    ensures bounded { (blocks : Blocks) (list : List ℕ) → AreWeights blocks list weights.now → IsBounded blocks list from result bound }
{
    let Some(mut left) = bound.checked_sub(weights[from]) else {
        return from + 1;
    };
    for to in from + 1..weights.len() {
        let Some(rest) = left.checked_sub(weights[to]) else {
            return to;
        };
        left = rest;
    }
    weights.len()
}
