// A drive of pages.
ghost use Rattle.std.specs.Prelude.{◌≡◌, ◌<◌, ◌≤◌, ◌+◌, ◌*◌, ◌%◌, ◌^◌, ℕ, List, [], ◌∷◌, Option, length, IfOk, OnOk, OnErr, IfSome, IsSome, IsOk, All};
ghost use Rattle.fg_base.specs.Faults.{Counts};
ghost use Rattle.fg_outside.specs.Log.{read_of};
ghost use Rattle.fg_outside.specs.Pages.{page_count, pages_of, HasRoom, lessened};
ghost use Rattle.fg_base.specs.Told.{grown, GrewByFirst};
ghost use Rattle.fg_outside.specs.declared.drive.Read.{Read};

use fg_base::Failed;
use fg_base::limits::{MAX_RUN_PAGES, PAGE_BYTES};

/// One read in a drive's log: so many pages from the first on.
#[derive(Clone, Copy, PartialEq, Eq, Debug)]
pub struct Read {
    pub first: u32,
    pub count: u32,
}

/// A drive holds bytes, of which it gives whole pages, and a log of its reads.
pub trait Drive: Drop {
    /// The bytes that it holds, where it tells them.
    ghost held: { Self → Option (List ℕ) };

    /// The reads so far, where it tells them.
    ghost log: { Self → Option (List Read) };

    /// The number of pages that `pages` answered last, 0 before the first answer.
    ghost told: { Self → ℕ };

    /// The pages that surely can still be appended, where it tells its room. Such a drive fails only past it.
    ghost room: { Self → Option ℕ };

    /// How often a call has failed.
    ghost faults: { Self → ℕ };

    /// The number of whole pages held.
    fn pages(&mut self) -> Result<u32, Failed>
        ensures count { IfOk result (λ n. IfSome (held self.old) (λ bytes. n ≡ page_count bytes)) }
        ensures told { IfOk result (λ n. told self.new ≡ n) }
        ensures told_err { OnErr result (told self.new ≡ told self.old) }

        ensures held { held self.new ≡ held self.old }
        ensures log { log self.new ≡ log self.old }
        ensures room { room self.new ≡ room self.old }

        ensures sure { IsSome (room self.old) → IsOk result }
        ensures counted { Counts (faults self.old) (faults self.new) result };

    /// Reads `count` pages from page `first` on into `into`, whose content is open after a failure.
    fn read_run(&mut self, first: u32, count: u32, into: &mut [u8]) -> Result<(), Failed>
        requires some { 1 ≤ count }
        requires few { count ≤ MAX_RUN_PAGES }
        requires told { first + count ≤ told self.old }
        requires whole { length into.old ≡ count * PAGE_BYTES }

        ensures bytes { OnOk result (IfSome (held self.old) (λ bytes. into.new ≡ pages_of first count bytes)) }
        ensures log { OnOk result (log self.new ≡ grown (log self.old) (read_of first count ∷ [])) }
        ensures log_err { OnErr result (GrewByFirst (read_of first count ∷ []) (log self.old) (log self.new)) }

        ensures held { held self.new ≡ held self.old }
        ensures same_told { told self.new ≡ told self.old }
        ensures room { room self.new ≡ room self.old }

        ensures sure { IsSome (room self.old) → IsOk result }
        ensures counted { Counts (faults self.old) (faults self.new) result };

    /// Appends whole pages. After a failure a first part of their bytes was appended.
    fn append(&mut self, pages: &[u8]) -> Result<(), Failed>
        requires some { 0 < length pages.now }
        requires whole { length pages.now % PAGE_BYTES ≡ 0 }

        ensures held { OnOk result (held self.new ≡ grown (held self.old) pages.now) }
        ensures held_err { OnErr result (GrewByFirst pages.now (held self.old) (held self.new)) }

        ensures log { log self.new ≡ log self.old }
        ensures told { told self.new ≡ told self.old }

        ensures room { OnOk result (room self.new ≡ lessened (room self.old) (page_count pages.now)) }
        ensures room_err { OnErr result (room self.new ≡ room self.old) }
        ensures sure { HasRoom (room self.old) (page_count pages.now) → IsOk result }
        ensures counted { Counts (faults self.old) (faults self.new) result };

    /// What `pages` answered fits its type.
    ghost told_fits: { (drive : Self) → told drive < 2 ^ 32 };

    /// What `pages` answered is still there, since bytes only come to the others.
    ghost told_held: { (drive : Self) → IfSome (held drive) (λ bytes. told drive ≤ page_count bytes) };

    /// What is held are bytes.
    ghost held_bytes: { (drive : Self) → IfSome (held drive) (λ bytes. All (λ byte. byte < 256) bytes) };
}
