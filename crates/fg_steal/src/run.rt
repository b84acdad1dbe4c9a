//! The two runs of a part's blocks, which an owner and its thieves begin at different ends of the part.
ghost use Rattle.std.specs.Prelude.{◌≡◌, IfOk};
ghost use Rattle.fg_steal.specs.Run.{run_lengths, near_length, first_run, second_run};

use std::alloc::{AllocError, Global};

/// The near run of a part is the first half of its blocks, rounded up, and the far run is the others.
#[derive(Clone, Copy)]
pub(crate) enum Run {
    Near,
    Far,
}

fn near_length(count: u32) -> u32
    ensures { result ≡ near_length count }
{
    count / 2 + count % 2
}

// The length of the near run of each part, and then of the far run of each.
#[tactic(auto, unfolding(crate::specs::Run::run_lengths))]
pub(crate) fn measured(alloc: Global, counts: &[u32]) -> Result<Vec<u32>, AllocError>
    ensures { IfOk result (λ lengths. lengths.items ≡ run_lengths counts.now) }
{
    let near = counts.iter().map(|count| near_length(*count));
    let far = counts.iter().map(|count| *count - near_length(*count));
    near.chain(far).collect(alloc)
}

// In which order a seat tries the runs of a part: its own near run first, and of another part the far run first.
pub(crate) fn order(seat: u32, part: u32) -> (Run, Run)
    ensures first { result.0 ≡ first_run seat part }
    ensures second { result.1 ≡ second_run seat part }
{
    if seat == part {
        (Run::Near, Run::Far)
    } else {
        (Run::Far, Run::Near)
    }
}
