//! A line as far as it was read.

ghost use Rattle.std.specs.Prelude.{◌≡◌, IsTrue};
ghost use Rattle.std.specs.Char.{is_ascii_digit};
ghost use Rattle.fg_text.specs.Line.{HasVertices, after_digits, after_gap, begun, closed, judge_fields, line_after, verdict_of, with_digit};
ghost use Rattle.fg_text.specs.Text.{is_blank};

use crate::digits::with_digit;
use crate::verdict::{Verdict, edge_between};

const RETURN: u8 = b'\r';

/// The numbers of whole fields. One of 2^32 or more stands for any such number.
#[derive(Clone, Copy)]
pub(crate) enum Fields {
    Empty,
    One(u64),
    Two(u64, u64),
    Three(u64, u64, u64),
}

/// The field that is being read, with the numbers of those before it.
#[derive(Clone, Copy)]
pub(crate) enum Place {
    Source,
    Target(u64),
    Weight(u64, u64),
}

/// A line as far as it was read.
#[derive(Clone, Copy)]
pub(crate) enum Line {
    /// Nothing of it.
    Start,
    /// It began with `#`.
    Comment,
    /// However it goes on, it isn't an edge.
    Spoiled,
    /// Whole fields, and blanks or nothing behind them.
    Gap(Fields),
    /// Digits of the field at this place, which write this number so far.
    Field(Place, u64),
    /// Whole fields, and a CR behind them: only the line's end may follow.
    Returned(Fields),
}

fn is_blank(byte: u8) -> bool
    ensures { result ≡ is_blank byte }
{
    byte == b' ' || byte == b'\t'
}

impl Fields {
    /// What a line of just these fields is.
    fn judge(self) -> Verdict
        ensures verdict { result ≡ judge_fields self }
        ensures vertices { HasVertices result }
    {
        match self {
            Fields::Empty => Verdict::Skipped,
            Fields::One(_) => Verdict::Broken,
            Fields::Two(source, target) => edge_between(source, target, None),
            Fields::Three(source, target, weight) => judge_three(source, target, weight),
        }
    }

    /// The first digit of the next field, if there can be one.
    fn begin(self, number: u64) -> Line
        ensures { result ≡ begun self number }
    {
        match self {
            Fields::Empty => Line::Field(Place::Source, number),
            Fields::One(source) => Line::Field(Place::Target(source), number),
            Fields::Two(source, target) => Line::Field(Place::Weight(source, target), number),
            Fields::Three(_, _, _) => Line::Spoiled,
        }
    }

    /// A byte behind a gap.
    fn after(self, byte: u8) -> Line
        ensures { result ≡ after_gap self byte }
    {
        if byte.is_ascii_digit() {
            return self.begin(with_digit(0, byte));
        }
        if is_blank(byte) {
            return Line::Gap(self);
        }
        if byte == RETURN {
            return Line::Returned(self);
        }
        Line::Spoiled
    }
}

fn judge_three(source: u64, target: u64, weight: u64) -> Verdict
    ensures verdict { result ≡ judge_fields (Fields.Three source target weight) }
    ensures vertices { HasVertices result }
{
    if weight > u64::from(u32::MAX) {
        return Verdict::Broken;
    }
    edge_between(source, target, Some(weight as u32))
}

impl Place {
    /// The fields once this one is whole.
    fn close(self, number: u64) -> Fields
        ensures { result ≡ closed self number }
    {
        match self {
            Place::Source => Fields::One(number),
            Place::Target(source) => Fields::Two(source, number),
            Place::Weight(source, target) => Fields::Three(source, target, number),
        }
    }

    /// A byte behind the digits of this field.
    fn after(self, number: u64, byte: u8) -> Line
        ensures { result ≡ after_digits self number byte }
    {
        if byte.is_ascii_digit() {
            return Line::Field(self, with_digit(number, byte));
        }
        if is_blank(byte) {
            return Line::Gap(self.close(number));
        }
        if byte == RETURN {
            return Line::Returned(self.close(number));
        }
        Line::Spoiled
    }
}

impl Line {
    /// The line with one byte more, which isn't its end.
    pub(crate) fn after(self, byte: u8) -> Line
        ensures { result ≡ line_after self byte }
    {
        match self {
            Line::Start => {
                if byte == b'#' {
                    return Line::Comment;
                }
                Fields::Empty.after(byte)
            }
            Line::Comment => Line::Comment,
            Line::Spoiled => Line::Spoiled,
            Line::Gap(fields) => fields.after(byte),
            Line::Field(place, number) => place.after(number, byte),
            Line::Returned(_) => Line::Spoiled,
        }
    }

    /// What the line is if it ends here.
    pub(crate) fn verdict(self) -> Verdict
        ensures verdict { result ≡ verdict_of self }
        ensures vertices { HasVertices result }
    {
        match self {
            Line::Start => Verdict::Skipped,
            Line::Comment => Verdict::Skipped,
            Line::Spoiled => Verdict::Broken,
            Line::Gap(fields) => fields.judge(),
            Line::Field(place, number) => place.close(number).judge(),
            Line::Returned(fields) => fields.judge(),
        }
    }
}
