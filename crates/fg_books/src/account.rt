//! What a lot has, as the proofs keep it. No value of `Account` is ever made.

use std::collections::LinkedList;

/// How many ledgers the books have, how many parts each of them has, and how many of them are open, from the first on.
#[derive(Clone, Copy)]
pub struct Plan {
    pub ledgers: u32,
    pub parts: u32,
    pub loose: u32,
}

/// Parts and an amount, added to the shares of `count` ledgers from `first` on.
pub struct Posting {
    pub first: u32,
    pub count: u32,
    pub parts: i64,
    pub amount: i64,
}

/// The plan of the books, and the postings whose sums are the shares.
pub struct Account {
    pub plan: Plan,
    pub postings: LinkedList<Posting>,
}
