//! The workers of a run, and what they work on.

ghost use Rattle.std.specs.Prelude.{◌≡◌, IfOk, None, Some, [], length};
ghost use Rattle.fg_gather.specs.Arrivals.{HasCome};
ghost use Rattle.fg_gather.specs.Marks.{AreMarks};
ghost use Rattle.fg_iter.specs.Crew.{CanMark, HasMarked, rules_in};
ghost use Rattle.fg_part.specs.PartMap.{block_total};

use fg_base::{Memory, VState};
use fg_crew::Slot;
use fg_gather::{Inboxes, any_marked, mark_all};
use fg_model::Program;
use fg_part::PartMap;
use std::alloc::Global;
use std::thread::Threads;

/// The workers of a run, each with its slot, and what they work on: the states of the vertices, a mark for each block, and what came to
/// each vertex in the iteration that is under way.
pub(crate) struct Crew<'a, P: Program, K, F: Drop> {
    pub(crate) states: Vec<VState>,
    pub(crate) marks: Vec<bool>,
    /// The phase that the marks were made for.
    pub(crate) marked: Option<u64>,
    pub(crate) slots: Vec<Slot<K, F>>,
    pub(crate) inboxes: Inboxes<'a, P>,
}

/// What a crew has beside its states and its workers. It is made first, since it takes memory.
#[derive(Drop)]
pub(crate) struct Outfit<'a, P: Program> {
    marks: Vec<bool>,
    inboxes: Inboxes<'a, P>,
}

impl<'a, P: Program> Outfit<'a, P> {
    /// No block has a mark, and nothing came to any vertex.
    pub(crate) fn new(alloc: Global, program: &'a P, map: PartMap) -> Result<Outfit<'a, P>, Memory>
        ensures marks { IfOk result (λ outfit. length outfit.marks.items ≡ block_total map) }
        ensures program { IfOk result (λ outfit. outfit.inboxes.program ≡ program.now) }
        ensures map { IfOk result (λ outfit. outfit.inboxes.map ≡ map) }
        ensures none { IfOk result (λ outfit. HasCome (P.rules program.now) map outfit.inboxes.parts []) }
    {
        let blocks = map.n.div_ceil(map.block_size());
        let marks = vec![in alloc; false; blocks as usize]?;
        let inboxes = Inboxes::new(alloc, program, map)?;
        Ok(Outfit { marks, inboxes })
    }
}

impl<'a, P: Program, K, F: Drop> Crew<'a, P, K, F> {
    /// The crew of these workers.
    pub(crate) fn new(
        outfit: Outfit<'a, P>,
        states: Vec<VState>,
        slots: Vec<Slot<K, F>>,
    ) -> Crew<'a, P, K, F>
        ensures { result ≡ record { states = states; marks = outfit.entry.marks; marked = None; slots = slots; inboxes = outfit.entry.inboxes } }
    {
        let Outfit { marks, inboxes } = outfit;
        Crew {
            states,
            marks,
            marked: None,
            slots,
            inboxes,
        }
    }

    /// The slots of the workers.
    pub(crate) fn into_slots(self) -> Vec<Slot<K, F>>
        ensures { result ≡ self.entry.slots }
    {
        let Crew {
            states: _states,
            marks: _marks,
            marked: _marked,
            slots,
            inboxes: _inboxes,
        } = self;
        slots
    }
}

/// Makes the marks of this phase, unless they are there.
pub(crate) fn make_marks<P: Program + Sync, K, F: Drop, R: Threads + Sync>(
    rt: &R,
    phase: u64,
    crew: &mut Crew<'_, P, K, F>,
)
    requires { CanMark P.rules crew.old }
    ensures marks { AreMarks (rules_in P.rules crew.new) crew.new.inboxes.map phase crew.new.states.items crew.new.marks.items }
    ensures rest { crew.new ≡ record crew.old { marks = crew.new.marks; marked = Some phase } }
{
    if crew.marked == Some(phase) {
        return;
    }
    let threads = crew.slots.len();
    let program = crew.inboxes.program();
    let map = crew.inboxes.map();
    mark_all(
        rt,
        program,
        map,
        phase,
        &crew.states,
        threads,
        &mut crew.marks,
    );
    crew.marked = Some(phase);
}

/// Whether some vertex is active in this phase.
pub(crate) fn some_active<P: Program + Sync, K, F: Drop, R: Threads + Sync>(
    rt: &R,
    phase: u64,
    crew: &mut Crew<'_, P, K, F>,
) -> bool
    requires { CanMark P.rules crew.old }
    ensures { HasMarked P.rules phase result crew.old crew.new }
{
    make_marks(rt, phase, crew);
    any_marked(&crew.marks)
}
