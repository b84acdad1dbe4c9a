ghost use Rattle.std.specs.Prelude.{◌≡◌, ℕ, ◌+◌, ◌<◌, ◌≤◌, [], ◌∷◌, ◌++◌, length, map, slice_index, vec_len, IfOk, IfSome, IfNone};
ghost use Rattle.std.specs.List.{All, Contains, flat_map, range_with_len};
ghost use Rattle.fg_base.specs.declared.limits.TheConstants.{MAX_WORKERS};

use crate::run::{Run, measured, order};
use crate::seat::Seat;
use crate::view::{Draw, Once, OneSeat, Plan, View};
use atomic_table::{Seat as Place, Table};
use fg_base::Memory;
use fg_base::limits::MAX_WORKERS;
use std::alloc::Global;
use std::marker::Model;

/// The blocks of all parts, from which workers draw with a [`Seat`] each. Contracts see how many blocks each part has,
/// and how many seats were made.
#[derive(Drop)]
pub struct Claims {
    plan: Plan,
    // the length of each run, whose draws the word of the same place counts
    lengths: Vec<u32>,
    table: Table<(), View, Plan, Once, Global>,
}

impl Model for Claims {
    ghost use Rattle.fg_steal.specs.Claims.{ClaimsValue, claims_of};
    ghost use Rattle.fg_steal.specs.Once.{AreOfPlan};

    ghost Value = { ClaimsValue };

    ghost view = { λ c. claims_of c.table.shared.table_id c.plan.counts.items c.plan.seats };

    ghost invariant = { λ c. AreOfPlan c.table.shared.key c.plan c.lengths.items c.table.shared.table_id.words c.table.shared.table_id.slots };
}

impl Claims {
    ghost use Rattle.fg_steal.specs.Claims.{times_drawn, EachOnce, AtMostOnce};
    ghost use Rattle.fg_steal.specs.Once.{opening_view, one_seat};
    ghost use Rattle.fg_steal.specs.Run.{run_of, run_length, block_at, IsInRun, IsFirst, IsSecond, FirstIsSpent, spent_parts};
    ghost use Rattle.fg_steal.specs.Seat.{fresh_seat, IsToldOf, WasToldOfAll};

    /// Claims over parts with so many blocks each, and as many seats as asked for, numbered from 0 in this order.
    pub fn new(alloc: Global, counts: &Vec<u32>, seats: u32) -> Result<(Claims, Vec<Seat>), Memory>
        requires parts { (0 < vec_len counts.now) × (vec_len counts.now ≤ MAX_WORKERS) }
        requires seats { (0 < seats) × (seats ≤ MAX_WORKERS) }
        ensures claims { IfOk result (λ made. (made.0.counts ≡ counts.now.items) × (made.0.seats ≡ seats)) }
        ensures count { IfOk result (λ made. vec_len made.1 ≡ seats) }
        ensures fresh { IfOk result (λ made. All (λ seat. seat ≡ fresh_seat made.0 seat.number) made.1.items) }
        ensures numbers { IfOk result (λ made. map (λ seat. seat.number) made.1.items ≡ range_with_len 0 seats) }
    {
        let lengths = measured(alloc, counts)?;
        let words = vec![in alloc; 0u64; lengths.len()]?;
        let plan = Plan {
            counts: counts.to_vec(alloc)?,
            seats,
        };
        let (table, place) = Table::of_words(alloc, &words, &plan)?;
        let claims = Claims {
            plan,
            lengths,
            table,
        };
        let seats = claims.seat_all(alloc, place)?;
        Ok((claims, seats))
    }

    /// Draws a block of the part that wasn't drawn before, by at most one fetch-and-add on the word of each of the
    /// part's two runs, and waits for nobody. A run that the seat was told is spent isn't tried again. The run that is
    /// tried second gives a block only to a seat that was told that the first is spent, and `None` comes exactly where
    /// the seat was told so of both, the last time in this draw; no block of the part was left then.
    pub fn draw(&self, seat: Seat, part: u32) -> (Seat, Option<u32>)
        requires own { seat.claims ≡ self.now }
        requires part { part < length self.now.counts }
        requires untold { ¬ Contains seat.told part }
        ensures own { (result.0.claims ≡ self.now) × (result.0.number ≡ seat.number) }
        ensures block { IfSome result.1 (λ k. k < slice_index self.now.counts part) }
        ensures new { IfSome result.1 (λ k. times_drawn part k seat.drawn ≡ 0) }
        ensures drawn { IfSome result.1 (λ k. (result.0.drawn ≡ seat.drawn ++ (part, k) ∷ []) × (result.0.told ≡ seat.told)) }
        ensures first { IfSome result.1 (λ k. IsFirst self.now.counts seat.number part k → result.0.spent ≡ seat.spent) }
        ensures second { IfSome result.1 (λ k. IsSecond self.now.counts seat.number part k → FirstIsSpent self.now.counts seat.number part result.0.spent) }
        ensures told { IfNone result.1 ((result.0.drawn ≡ seat.drawn) × (result.0.told ≡ seat.told ++ part ∷ [])) }
        ensures spent { IfNone result.1 ((run : Run) → Contains result.0.spent (run_of self.now.counts part run)) }
    {
        let (first, second) = order(seat.number, part);
        let (seat, block) = self.try_run(seat, part, first);
        if block.is_some() {
            return (seat, block);
        }
        self.try_run(seat, part, second)
    }

    /// Ends the claims once all seats came back and each was told `None` for each part.
    pub fn close(self, seats: Vec<Seat>)
        requires all { vec_len seats ≡ self.seats }
        requires own { All (λ seat. seat.claims ≡ self) seats.items }
        requires told { All (λ seat. WasToldOfAll self.counts seat) seats.items }
        ensures { EachOnce self.counts (flat_map (λ seat. seat.drawn) seats.items) }
    {
        self.end(seats);
    }

    /// Ends the claims early: all seats came back, whatever they were told.
    pub fn stop(self, seats: Vec<Seat>)
        requires all { vec_len seats ≡ self.seats }
        requires own { All (λ seat. seat.claims ≡ self) seats.items }
        ensures { AtMostOnce self.counts (flat_map (λ seat. seat.drawn) seats.items) }
    {
        self.end(seats);
    }

    // Cuts the first place into one for each seat.
    fn seat_all(&self, alloc: Global, mut place: Place<(), View>) -> Result<Vec<Seat>, Memory>
        requires place { (place.table_id ≡ self.now.table) × (place.me ≡ (opening_view self.now.counts self.now.seats, [])) }
        ensures count { IfOk result (λ seats. vec_len seats ≡ self.now.seats) }
        ensures fresh { IfOk result (λ seats. All (λ seat. seat ≡ fresh_seat self.now seat.number) seats.items) }
        ensures numbers { IfOk result (λ seats. map (λ seat. seat.number) seats.items ≡ range_with_len 0 self.now.seats) }
    {
        let mut seats = Vec::with_capacity(alloc, self.plan.seats as usize)?;
        let last = self.plan.seats - 1;
        for number in 0..last {
            let other = self.table.shared.split_seat::<OneSeat>(&mut place);
            seats.push(self.fresh(alloc, number, other)?)?;
        }
        seats.push(self.fresh(alloc, last, place)?)?;
        Ok(seats)
    }

    // A seat that wasn't told of any run.
    fn fresh(&self, alloc: Global, number: u32, place: Place<(), View>) -> Result<Seat, Memory>
        requires { (place.table_id ≡ self.now.table) × (place.me ≡ (one_seat (opening_view self.now.counts self.now.seats), [])) }
        ensures { IfOk result (λ seat. seat ≡ fresh_seat self.now number) }
    {
        let spent = vec![in alloc; false; self.lengths.len()]?;
        Ok(Seat {
            number,
            spent,
            place,
        })
    }

    // Draws from one run of the part, unless the seat was told that it is spent.
    fn try_run(&self, mut seat: Seat, part: u32, run: Run) -> (Seat, Option<u32>)
        requires own { seat.claims ≡ self.now }
        requires part { part < length self.now.counts }
        ensures own { (result.0.claims ≡ self.now) × (result.0.number ≡ seat.number) }
        ensures block { IfSome result.1 (λ k. (k < slice_index self.now.counts part) × IsInRun (slice_index self.now.counts part) run k) }
        ensures new { IfSome result.1 (λ k. times_drawn part k seat.drawn ≡ 0) }
        ensures drawn { IfSome result.1 (λ k. (result.0.drawn ≡ seat.drawn ++ (part, k) ∷ []) × (result.0.spent ≡ seat.spent)) }
        ensures unspent { IfSome result.1 (λ _. ¬ Contains seat.spent (run_of self.now.counts part run)) }
        ensures told { (seat.told ≡ spent_parts self.now.counts seat.spent) × (result.0.told ≡ spent_parts self.now.counts result.0.spent) }
        ensures none { IfNone result.1 ((result.0.drawn ≡ seat.drawn) × IsToldOf (run_of self.now.counts part run) seat.spent result.0.spent) }
    {
        let word = self.word_of(part, run);
        if seat.spent[word] {
            return (seat, None);
        }
        let number = self
            .table
            .shared
            .fetch_add::<Draw>(&mut seat.place, word, 1);
        if number >= u64::from(self.lengths[word]) {
            seat.spent[word] = true;
            return (seat, None);
        }
        let block = self.block_at(part, run, number as u32);
        (seat, Some(block))
    }

    // The word that counts the draws from the run.
    fn word_of(&self, part: u32, run: Run) -> usize
        requires { part < length self.now.counts }
        ensures { result ≡ run_of self.now.counts part run }
    {
        match run {
            Run::Near => part as usize,
            Run::Far => self.plan.counts.len() + part as usize,
        }
    }

    // The block at a place of the run.
    fn block_at(&self, part: u32, run: Run, place: u32) -> u32
        requires part { part < length self.now.counts }
        requires place { place < run_length self.now.counts (run_of self.now.counts part run) }
        ensures at { (part, result) ≡ block_at self.now.counts (run_of self.now.counts part run, place) }
        ensures block { result < slice_index self.now.counts part }
        ensures in_run { IsInRun (slice_index self.now.counts part) run result }
    {
        match run {
            Run::Near => place,
            Run::Far => self.lengths[part as usize] + place,
        }
    }

    // Joins all seats, of which the last place then knows all draws.
    fn end(self, mut seats: Vec<Seat>)
        requires all { vec_len seats ≡ self.seats }
        requires own { All (λ seat. seat.claims ≡ self) seats.items }
        ensures some { AtMostOnce self.counts (flat_map (λ seat. seat.drawn) seats.items) }
        ensures whole { All (λ seat. WasToldOfAll self.counts seat) seats.items → EachOnce self.counts (flat_map (λ seat. seat.drawn) seats.items) }
    {
        let Some(last) = seats.pop() else {
            return;
        };
        let Seat { mut place, .. } = last;
        while let Some(seat) = seats.pop() {
            let Seat { place: other, .. } = seat;
            self.table.shared.join_seat::<OneSeat>(&mut place, other);
        }
        let Claims { table, .. } = self;
        table.close_with(place).free();
    }
}
