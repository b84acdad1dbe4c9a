//! A reader of lines, which takes a text in pieces.

use crate::digits::digits_behind;
use crate::gathered::Gathered;
use crate::line::Line;
use crate::verdict::{Edge, Verdict};
use fg_base::Refusal;
use fg_model::Edges;
use std::alloc::Global;

const LINE_END: u8 = b'\n';

/// A reader of lines: where it stands in its line, and what the lines before gave.
#[derive(Drop)]
pub(crate) struct Reader {
    pub undirected: bool,
    /// The number of the line, from 1.
    pub number: u64,
    pub line: Line,
    pub gathered: Gathered,
}

impl Reader {
    ghost use Rattle.std.specs.Prelude.{◌≡◌, ◌+◌, ◌<◌, ◌≤◌, ◌^◌, ◌++◌, ◌∷◌, [], ℕ, Bool, false, true, IfErr, IfOk, List, OnOk, drop, fold, length, take};
    ghost use Rattle.fg_base.specs.declared.limits.TheConstants.{MAX_ENTRIES, MAX_VERTICES};
    ghost use Rattle.fg_text.specs.declared.line.Line.TheVariants.{Start};
    ghost use Rattle.fg_text.specs.Gathered.{pairs_of, with_edges};
    ghost use Rattle.fg_text.specs.Line.{line_after};
    ghost use Rattle.fg_text.specs.Reader.{AreWithinLine, HasNoRoom, ReadsSame, Refuses, RefusesWithin, line_ends, reads_on};
    ghost use Rattle.fg_text.specs.Text.{whole_text};

    /// A reader at the beginning of a text.
    pub(crate) fn new(alloc: Global, undirected: bool) -> Reader
        ensures { result ≡ record { undirected = undirected; number = 1; line = Start; gathered = record { n = 0; weighted = false; pairs = [] } } }
    {
        Reader {
            undirected,
            number: 1,
            line: Line::Start,
            gathered: Gathered::new(alloc),
        }
    }

    /// Goes to the next line.
    pub(crate) fn begin_line(&mut self)
        requires { self.old.number + 1 < 2 ^ 64 }
        ensures { self.new ≡ record self.old { number = self.old.number + 1; line = Start } }
    {
        self.number += 1;
        self.line = Line::Start;
    }

    /// Takes the edge of the line, and goes to the next one.
    pub(crate) fn take_edge(&mut self, edge: Edge) -> Result<(), Refusal>
        requires number { self.old.number + 1 < 2 ^ 64 }
        requires source { edge.source < MAX_VERTICES }
        requires target { edge.target < MAX_VERTICES }
        ensures ok { OnOk result (self.new ≡ record self.old {
          number = self.old.number + 1;
          line = Start;
          gathered = with_edges self.old.undirected self.old.gathered (edge ∷ []);
        }) }
        ensures room { OnOk result (length self.old.gathered.pairs + length (pairs_of self.old.undirected edge) ≤ MAX_ENTRIES) }
        ensures refused { IfErr result (HasNoRoom self.old.number (length self.old.gathered.pairs + length (pairs_of self.old.undirected edge))) }
    {
        if !self.gathered.has_room(self.undirected, edge) {
            return Err(Refusal::TooManyEdges(self.number));
        }
        if self.gathered.add(self.undirected, edge).is_err() {
            return Err(Refusal::Memory);
        }
        self.begin_line();
        Ok(())
    }

    /// Ends the line: what it is decides.
    fn end_line(&mut self) -> Result<(), Refusal>
        requires { self.old.number + 1 < 2 ^ 64 }
        ensures ok { OnOk result ((whole : Bool) (rest : List ℕ) → reads_on whole self.new rest ≡ reads_on whole self.old (LINE_END ∷ rest)) }
        ensures number { OnOk result (self.new.number ≡ self.old.number + 1) }
        ensures refused { IfErr result (Refuses self.old.number (self.old.number + 1) (λ whole rest. reads_on whole self.old (LINE_END ∷ rest))) }
    {
        match self.line.verdict() {
            Verdict::Skipped => {
                self.begin_line();
                Ok(())
            }
            Verdict::Broken => Err(Refusal::BadLine(self.number)),
            Verdict::TooLarge => Err(Refusal::IdTooLarge(self.number)),
            Verdict::Gives(edge) => self.take_edge(edge),
        }
    }

    /// Takes the first byte, which isn't a line end, and where it is in a field all digits behind it. Answers how many bytes it
    /// took.
    fn take_bytes(&mut self, bytes: &[u8]) -> usize
        requires some { 0 < length bytes.now }
        requires inside { AreWithinLine (take 1 bytes.now) }
        ensures some { 0 < result }
        ensures within { result ≤ length bytes.now }
        ensures inside { AreWithinLine (take result bytes.now) }
        ensures line { self.new ≡ record self.old { line = fold line_after self.old.line (take result bytes.now) } }
    {
        let line = self.line.after(bytes[0]);
        match line {
            Line::Field(place, number) => {
                let more = digits_behind(number, &bytes[1..]);
                self.line = Line::Field(place, more.number);
                1 + more.count
            }
            _ => {
                self.line = line;
                1
            }
        }
    }

    /// Takes some first of these bytes, at least one, and answers how many.
    fn step(&mut self, bytes: &[u8]) -> Result<usize, Refusal>
        requires some { 0 < length bytes.now }
        requires number { self.old.number + 1 < 2 ^ 64 }
        ensures some { IfOk result (λ count. 0 < count) }
        ensures within { IfOk result (λ count. count ≤ length bytes.now) }
        ensures ok { IfOk result (λ count. ReadsSame self.new (drop count bytes.now) self.old bytes.now) }
        ensures number { IfOk result (λ count. self.new.number + line_ends (drop count bytes.now) ≡ self.old.number + line_ends bytes.now) }
        ensures refused { IfErr result (RefusesWithin self.old bytes.now) }
    {
        if bytes[0] != LINE_END {
            return Ok(self.take_bytes(bytes));
        }
        match self.end_line() {
            Ok(()) => Ok(1),
            Err(refusal) => Err(refusal),
        }
    }

    /// Takes a piece of the text.
    pub(crate) fn feed(&mut self, piece: &[u8]) -> Result<(), Refusal>
        requires { self.old.number + length piece.now < 2 ^ 64 }
        ensures ok { OnOk result ((whole : Bool) (rest : List ℕ) → reads_on whole self.new rest ≡ reads_on whole self.old (piece.now ++ rest)) }
        ensures number { OnOk result (self.new.number ≡ self.old.number + line_ends piece.now) }
        ensures refused { IfErr result (RefusesWithin self.old piece.now) }
    {
        let mut at = 0;
        while at < piece.len() {
            match self.step(&piece[at..]) {
                Ok(count) => at += count,
                Err(refusal) => return Err(refusal),
            }
        }
        Ok(())
    }

    /// Ends the text. The last line counts, also where no line end ended it.
    pub(crate) fn finish(self) -> Result<Edges, Refusal>
        requires { self.number + 1 < 2 ^ 64 }
        ensures ok { IfOk result (λ edges. whole_text (reads_on true self []) ≡ Ok edges) }
        ensures refused { IfErr result (Refuses self.number (self.number + 1) (λ whole rest. reads_on true self [])) }
    {
        let mut reader = self;
        if let Err(refusal) = reader.end_line() {
            return Err(refusal);
        }
        let Reader {
            undirected: _,
            number: _,
            line: _,
            gathered,
        } = reader;
        Ok(gathered.into_edges())
    }
}
