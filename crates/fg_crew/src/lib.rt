//! The workers of an iteration: so many at once run the blocks of a wave, each block once.
//!
//! A wave is a run of places in a list of blocks. [`work_wave`] gives its blocks to workers, who draw them from claims, their own part
//! first and then the others'. Each worker runs the blocks that it draws through `RunsBlock`, with what it keeps in its [`Slot`], the
//! token by which it reads pages and the count of its runs, say. What it promises: the results are those of the wave's blocks, each block
//! once, whoever ran it, and all workers together spend just what these tell; and whatever the answer, all slots are there in order, and
//! all workers together, and so each, spend no more than the whole wave asks for.
//!
//! Below stand `fg_task`, which says what a block and its result are, `fg_steal`, from which blocks are drawn, and `fg_part`, which deals
//! the places out. Above, whoever runs an iteration delivers the batches of one wave before the next one is run.
#![tactic(auto)]

mod dealing;
mod seating;
mod slot;
mod taking;
#[cfg(test)]
mod tests;
mod wave;
mod working;

pub use slot::Slot;
pub use wave::work_wave;
