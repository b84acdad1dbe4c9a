//! What the engine reads and writes: sources of text, sinks for text, and drives of pages.
//!
//! Each is a trait whose contract says what a call moved and how the count of faults went. An implementation may tell
//! its content, and every clause on content holds told or not, so whoever uses it is generic and never asks. Below
//! stands `fg_base` with the words for what is told and for counts of faults.
#![tactic(auto)]

mod board;
mod drive;
mod drives;
mod fault_count;
mod file_drive;
mod gate_drive;
mod mem_drive;
mod mem_sink;
mod mem_source;
mod room_drive;
mod sink;
mod source;
mod std_sink;
mod std_source;

pub use board::Board;
pub use drive::{Drive, Read};
pub use drives::{count_pages, read_page};
pub use file_drive::FileDrive;
pub use gate_drive::GateDrive;
pub use mem_drive::{DriveOp, MEM_DRIVE_BYTES, MemDrive};
pub use mem_sink::MemSink;
pub use mem_source::MemSource;
pub use room_drive::RoomDrive;
pub use sink::{Sink, write_all};
pub use source::Source;
pub use std_sink::StdSink;
pub use std_source::StdSource;
