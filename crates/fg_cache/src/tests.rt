//! Caches over drives in memory.

mod calls;
mod threads;
