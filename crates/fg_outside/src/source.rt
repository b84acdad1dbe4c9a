// A stream of bytes that come in.
ghost use Rattle.std.specs.Prelude.{◌≡◌, ◌<◌, ◌≤◌, ℕ, List, [], Option, length, take, IfOk, IfSome, OnErr};
ghost use Rattle.fg_base.specs.Faults.{Counts};
ghost use Rattle.fg_base.specs.Told.{led_by};

use fg_base::Failed;

/// A stream of bytes that come in, piece by piece.
pub trait Source {
    /// The bytes that are left, where the source tells them.
    ghost left: { Self → Option (List ℕ) };

    /// How often a call has failed.
    ghost faults: { Self → ℕ };

    /// Moves the next bytes into the front of `into`, and answers how many. 0 is the end of the stream.
    /// What `into` holds behind them, or after a failure, is open.
    fn take(&mut self, into: &mut [u8]) -> Result<usize, Failed>
        requires { 0 < length into.old }

        ensures within { IfOk result (λ k. k ≤ length into.new) }
        ensures moved { IfOk result (λ k. left self.old ≡ led_by (take k into.new) (left self.new)) }
        ensures end { IfOk result (λ k. k ≡ 0 → IfSome (left self.old) (λ bytes. bytes ≡ [])) }
        ensures err { OnErr result (left self.new ≡ left self.old) }

        ensures counted { Counts (faults self.old) (faults self.new) result };
}
