// A stream of bytes that go out.
ghost use Rattle.std.specs.Prelude.{◌≡◌, ◌<◌, ◌≤◌, ℕ, Bool, false, List, Option, length, take, IfOk, OnOk, OnErr};
ghost use Rattle.fg_base.specs.Faults.{Counts};
ghost use Rattle.fg_base.specs.Told.{grown, GrewByFirst};

use fg_base::Failed;

/// A stream of bytes that go out.
pub trait Sink {
    /// The bytes that were written, where the sink tells them.
    ghost written: { Self → Option (List ℕ) };

    /// Whether bytes that were put may still be here, not handed on.
    ghost keeps_back: { Self → Bool };

    /// How often a call has failed.
    ghost faults: { Self → ℕ };

    /// Writes the first of the bytes, and answers how many, at least one. A sink that takes nothing fails.
    fn put(&mut self, bytes: &[u8]) -> Result<usize, Failed>
        requires { 0 < length bytes.now }

        ensures some { IfOk result (λ k. 1 ≤ k) }
        ensures within { IfOk result (λ k. k ≤ length bytes.now) }
        ensures written { IfOk result (λ k. written self.new ≡ grown (written self.old) (take k bytes.now)) }
        ensures err { OnErr result (written self.new ≡ written self.old) }

        ensures counted { Counts (faults self.old) (faults self.new) result };

    /// Hands on all that the sink has gathered. Whoever writes last calls it, since a put may keep its bytes back.
    fn flush(&mut self) -> Result<(), Failed>
        ensures written { written self.new ≡ written self.old }
        ensures handed { OnOk result (keeps_back self.new ≡ false) }
        ensures counted { Counts (faults self.old) (faults self.new) result };
}

/// Writes all the bytes. After a failure a first part of them was written.
#[tactic(auto, using(std::proofs::lemmas::List::take_rest, fg_base::proofs::GrowthLemmas::growth))]
pub fn write_all<K: Sink>(out: &mut K, bytes: &[u8]) -> Result<(), Failed>
    ensures whole { OnOk result (K.written out.new ≡ grown (K.written out.old) bytes.now) }
    ensures part { OnErr result (GrewByFirst bytes.now (K.written out.old) (K.written out.new)) }

    ensures counted { Counts (K.faults out.old) (K.faults out.new) result }
{
    let mut done = 0;
    while done < bytes.len() {
        done += out.put(&bytes[done..])?;
    }
    Ok(())
}

#[cfg(test)]
mod tests {
    use super::*;
    use crate::MemSink;
    use std::test::Fail;

    // Hands on at most two bytes of each put.
    #[derive(Drop)]
    struct Narrow {
        inner: MemSink,
    }

    impl Sink for Narrow {
        ghost written = { λ sink. ⟦<MemSink as Sink>⟧.written sink.inner };

        ghost keeps_back = { λ sink. ⟦<MemSink as Sink>⟧.keeps_back sink.inner };

        ghost faults = { λ sink. ⟦<MemSink as Sink>⟧.faults sink.inner };

        fn put(&mut self, bytes: &[u8]) -> Result<usize, Failed> {
            self.inner.put(&bytes[..bytes.len().min(2)])
        }

        fn flush(&mut self) -> Result<(), Failed> {
            self.inner.flush()
        }
    }

    #[test]
    fn goes_on_after_a_part_and_stops_at_a_failure(rt: HostRuntime) -> Result<(), Fail> {
        let alloc = rt.alloc();
        for (fails, want, written) in [
            (0, Ok(()), "abcde"),
            (1, Err(Failed), ""),
            (3, Err(Failed), "abcd"),
        ] {
            let inner = MemSink::new(alloc, [fails].to_vec(alloc)?);
            let mut sink = Narrow { inner };
            assert_eq!(rt; write_all(&mut sink, b"abcde"), want, "call {fails} fails");
            assert_eq!(rt;
                sink.inner.written(),
                written.as_bytes(),
                "call {fails} fails"
            );
        }
        Ok(())
    }
}
