//! A crew as an engine.

ghost use Rattle.std.specs.Prelude.{◌≡◌, None};
ghost use Rattle.fg_iter.specs.declared.crew.Crew.{Crew as Value};
ghost use Rattle.fg_iter.specs.Engine.{fault_kept, iter_fault_of};

use crate::crew::Crew;
use crate::runs_on::RunsOn;
use crate::unfinished::Unfinished;
use fg_base::{Items, Tally, VState};
use fg_model::{Counts, Engine, IterFault, Program};
use std::alloc::Global;
use std::marker::PhantomData;
use std::mem;

/// What has a crew.
pub(crate) trait HasCrew<P: Program, K, E: Drop> {
    /// The crew.
    ghost crew: { Self → Value P K E };

    /// Its states.
    fn states(&self) -> &[VState]
        ensures { result.now ≡ (crew self.now).states.items };

    /// Gives its states away.
    fn give_states(&mut self, alloc: Global) -> Items<VState>
        ensures value { result ≡ (crew self.old).states.items }
        ensures rest { crew self.new ≡ record (crew self.old) { states = (crew self.new).states; marked = None } };
}

impl<'a, P: Program, K, E: Drop> HasCrew<P, K, E> for Crew<'a, P, K, E> {
    ghost crew = { λ crew. crew };

    fn states(&self) -> &[VState] {
        self.states.as_slice()
    }

    fn give_states(&mut self, alloc: Global) -> Items<VState> {
        self.marked = None;
        Items::from_vec(mem::replace(&mut self.states, Vec::new(alloc)))
    }
}

/// A crew with what it is run by. A trait's method starts no threads, so these are calls that were made where threads may be started: one
/// tells whether some vertex is active, and one runs an iteration.
pub(crate) struct CrewEngine<'a, K, C, E: Drop, B, A, I> {
    /// What a worker keeps.
    pub(crate) kept: PhantomData<K>,
    pub(crate) runner: &'a B,
    pub(crate) crew: C,
    /// The fault that cut an iteration short.
    pub(crate) fault: Option<E>,
    /// Whether an iteration wasn't finished.
    pub(crate) cut_short: bool,
    pub(crate) some_active: A,
    pub(crate) iterates: I,
}

impl<
    'a,
    P: Program,
    K,
    T: Tally,
    E: Drop,
    B: RunsOn<P, K, Fault = E>,
    C: HasCrew<P, K, E>,
    A: Fn(u64, &mut C) -> bool,
    I: Fn(u64, &mut C, &mut T) -> Result<Counts, Unfinished<E>>,
> Engine<P, T> for CrewEngine<'a, K, C, E, B, A, I> {
    ghost use Rattle.std.specs.Prelude.{◌≡◌};
    ghost use Rattle.std.proofs.Common.{◌∙◌, refl, subst};
    ghost use denote.Ref.{Bor};
    ghost use Rattle.fg_crew.specs.Slots.{Has};
    ghost use Rattle.fg_iter.specs.Engine.{HasDone, IsReady};
    ghost use Rattle.fg_iter.specs.DoneLaws.{HasDone-more, HasDone-none};

    ghost graph = { λ engine. (B.lists engine.runner.now).graph };

    ghost knows = { λ engine. (B.lists engine.runner.now).knows };

    ghost states_of = { λ engine. (C.crew engine.crew).states.items };

    ghost ready = { λ engine rules. IsReady P.rules (B.lists engine.runner.now) (B.allows engine.runner.now) (B.lends engine.runner.now) B.spent
        (B.caused engine.runner.now) T.runs T.entries C.crew (A.pre engine.some_active) (A.post engine.some_active) (I.pre engine.iterates)
        (I.post engine.iterates) rules engine.crew };

    ghost allows = { λ engine rules begun. B.allows engine.runner.now rules begun };

    ghost kept = { λ old new. (new.runner ≡ old.runner) × (new.fault ≡ old.fault) };

    ghost failed = { λ old new _. (new.runner ≡ old.runner) × Has (B.caused new.runner.now) new.fault };

    ghost did = { λ old new rules begun. (new.runner ≡ old.runner)
        × HasDone (B.lists old.runner.now) B.spent rules begun old.cut_short new.cut_short (C.crew old.crew) (C.crew new.crew) };

    fn states(&self) -> &[VState] {
        self.crew.states()
    }

    fn give_states(&mut self, alloc: Global) -> Items<VState> {
        self.crew.give_states(alloc)
    }

    fn some_active(&mut self, _program: &P, phase: u64) -> bool {
        (self.some_active)(phase, &mut self.crew)
    }

    fn iterate(
        &mut self,
        _alloc: Global,
        _program: &P,
        phase: u64,
        tally: &mut T,
    ) -> Result<Counts, IterFault> {
        match (self.iterates)(phase, &mut self.crew, tally) {
            Ok(counts) => Ok(counts),
            Err(unfinished) => {
                self.cut_short = true;
                Err(keep_fault(unfinished, &mut self.fault))
            }
        }
    }

    ghost kept_none = { λ _. (refl, refl) };

    ghost kept_more = { λ _ _ _ one two. (two.0 ∙ one.0, two.1 ∙ one.1) };

    ghost failed_more = { λ _ _ _ _ one two. (two.0 ∙ one.0, two.1) };

    ghost did_none = { λ engine rules. (refl, HasDone-none (B.lists engine.runner.now) B.spent rules engine.cut_short (C.crew engine.crew)) };

    ghost did_more = { λ first middle last rules begun next one two. (
      two.0 ∙ one.0,
      HasDone-more (B.lists first.runner.now) B.spent rules begun next
          first.cut_short middle.cut_short last.cut_short (C.crew first.crew) (C.crew middle.crew) (C.crew last.crew)
          one.1 (subst (λ (runner : Bor B). HasDone (B.lists runner.now) B.spent rules next middle.cut_short last.cut_short (C.crew middle.crew)
          (C.crew last.crew)) one.0 two.1),
    ) };
}

/// The fault as an engine's. One of the runner is kept; of which drive it is is known to whoever has the drives.
fn keep_fault<F: Drop>(unfinished: Unfinished<F>, kept: &mut Option<F>) -> IterFault
    ensures answer { result ≡ iter_fault_of unfinished }
    ensures kept { kept.new ≡ fault_kept unfinished kept.old }
{
    match unfinished {
        Unfinished::Memory => IterFault::Memory,
        Unfinished::BadEdge(bad) => IterFault::BadEdge(bad),
        Unfinished::Fault(fault) => {
            *kept = Some(fault);
            IterFault::Drive(0)
        }
    }
}
