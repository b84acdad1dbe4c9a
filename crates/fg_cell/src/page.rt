//! The buffer of one page.
ghost use Rattle.std.specs.Prelude.{◌≡◌, IfOk, length, replicate};
ghost use Rattle.fg_base.specs.declared.limits.TheConstants.{PAGE_BYTES, NO_PAGE};

use fg_base::Memory;
use fg_base::limits::{NO_PAGE, PAGE_BYTES};
use std::alloc::Global;
use std::marker::Model;

/// A page number, or `NO_PAGE`, and `PAGE_BYTES` on the heap. A move leaves the bytes where they are.
#[derive(Drop)]
pub struct PageBuf {
    number: u32,
    bytes: Vec<u8>,
}

impl Model for PageBuf {
    ghost use Rattle.std.specs.Prelude.{◌≡◌, length};
    ghost use Rattle.fg_base.specs.declared.limits.TheConstants.{PAGE_BYTES};
    ghost use Rattle.fg_cell.specs.Pages.{Page};

    ghost Value = { Page };

    ghost view = { λ b. record { number = b.number; bytes = b.bytes.items } };

    ghost invariant = { λ b. length b.bytes.items ≡ PAGE_BYTES };
}

impl PageBuf {
    /// A buffer with no page in it, and zeros.
    pub fn new(alloc: Global) -> Result<PageBuf, Memory>
        ensures number { IfOk result (λ b. b.number ≡ NO_PAGE) }
        ensures bytes { IfOk result (λ b. b.bytes ≡ replicate PAGE_BYTES 0) }
    {
        let bytes = vec![in alloc; 0u8; PAGE_BYTES]?;
        Ok(PageBuf {
            number: NO_PAGE,
            bytes,
        })
    }

    pub fn number(&self) -> u32
        ensures { result ≡ self.now.number }
    {
        self.number
    }

    pub fn bytes(&self) -> &[u8]
        ensures value { result.now ≡ self.now.bytes }
        ensures length { length result.now ≡ PAGE_BYTES }
    {
        self.bytes.as_slice()
    }

    /// Puts a page into the buffer.
    pub fn set(&mut self, page: u32, bytes: &[u8])
        requires { length bytes.now ≡ PAGE_BYTES }
        ensures { self.new ≡ record { number = page; bytes = bytes.now } }
    {
        self.number = page;
        self.bytes.as_mut_slice().copy_from_slice(bytes);
    }
}
