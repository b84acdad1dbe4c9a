//! What an iteration does with its messages, once its vertices have run.
//!
//! [`Inboxes`] are the inboxes of all parts. They take the batches of wave after wave, each part its own in a thread of its own, and
//! then give each vertex its new state, a run of vertices to each thread. What they promise: whatever order the batches came in,
//! where they held the iteration's mail the states are those after the iteration (`gather`), and emptied inboxes hold nothing.
//! Marks say in which blocks a vertex is awake, exactly: [`mark_all`] makes them where a phase begins, [`mark_again`] after a gather,
//! and [`any_marked`] tells from them whether the next iteration has a vertex to run. A block without a mark to which nothing came
//! costs two looks in each of them. After [`Inboxes::new`] nothing takes memory.
//!
//! Below stand `fg_batch`, which says what an inbox holds, and `fg_model`, which says what an iteration is. Above, whoever runs the
//! vertices of an iteration sends its messages in batches, and calls these in turn: deliver for each wave, gather, mark, empty.
#![tactic(auto)]

mod deliver;
mod gather;
mod inboxes;
mod marks;
#[cfg(test)]
mod tests;

pub use inboxes::Inboxes;
pub use marks::{any_marked, mark_again, mark_all};
