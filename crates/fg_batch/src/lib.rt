//! Messages from blocks to parts.
//!
//! A worker sends into its [`Outbox`], which keeps the messages lane by lane, a lane being 2^16 places of a part. What a block sent
//! to a lane stands then in a [`Batch`], whose [`Mails`] take 8 bytes a message, and 8 more where its number is 2^40 - 1 or above.
//! The part's [`Inbox`] takes the batches for it, combines what goes to one vertex into one number and folds that into the states.
//!
//! Below stand `fg_part`, which says which part and place a vertex has, and `fg_model`, which says what a program's messages are.
#![tactic(auto)]

mod batch;
mod bits;
mod inbox;
mod mails;
mod outbox;
#[cfg(test)]
mod tests;
mod word;

pub use batch::Batch;
pub use fg_model::Mail;
pub use inbox::Inbox;
pub use mails::{MailIter, Mails};
pub use outbox::Outbox;
