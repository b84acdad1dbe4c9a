//! The line of a refusal.

ghost use Rattle.std.specs.Prelude.{◌≡◌, ◌+◌, ◌≤◌, [], ◌++◌, ◌≢◌, length, codes, decimal, OnOk, OnErr};
ghost use Rattle.fg_base.specs.Faults.{Counts};
ghost use Rattle.fg_base.specs.Told.{grown, GrewByFirst};
ghost use Rattle.arrayvec.specs.ArrayString.{array_string_len};
ghost use Rattle.fg_base.specs.Options.{option_name};
ghost use Rattle.fg_report.specs.Refusals.{direction_name, word_fault_text, bad_entry_text, refusal_text, refusal_line};
ghost use Rattle.fg_base.specs.declared.refusal.Refusal.TheVariants.{OutputFault as output_fault};

use crate::line::{LINE_BYTES, Line, push_number};
use fg_base::{BadEdge, Dir, Failed, Opt, Refusal, WordFault};
use fg_outside::{Sink, write_all};

/// The direction as it is written.
fn direction(dir: Dir) -> &'static str
    ensures name { result.now ≡ direction_name dir }
    ensures short { length result.now ≤ 3 }
{
    match dir {
        Dir::Out => "out",
        Dir::In => "in",
    }
}

/// Appends a short text and the option's name.
fn push_option(line: &mut Line, fault: &str, option: Opt)
    requires short { length fault.now ≤ 10 }
    requires room { array_string_len line.old + 20 ≤ LINE_BYTES }
    ensures bytes { line.new.bytes ≡ line.old.bytes ++ fault.now ++ option_name option }
    ensures len { array_string_len line.new ≤ array_string_len line.old + 20 }
{
    line.push_str(fault);
    line.push_str(option.name());
}

/// Appends what is wrong with the words.
fn push_word_fault(line: &mut Line, fault: WordFault)
    requires { array_string_len line.old + 20 ≤ LINE_BYTES }
    ensures bytes { line.new.bytes ≡ line.old.bytes ++ word_fault_text fault }
    ensures len { array_string_len line.new ≤ array_string_len line.old + 20 }
{
    match fault {
        WordFault::Parse => line.push_str("parse"),
        WordFault::Command => line.push_str("command"),
        WordFault::Extra(option) => push_option(line, "extra ", option),
        WordFault::Missing(option) => push_option(line, "missing ", option),
        WordFault::Range(option) => push_option(line, "range ", option),
    }
}

/// Appends a number between two short texts.
fn push_between(line: &mut Line, before: &str, number: u64, after: &str)
    requires short_before { length before.now ≤ 8 }
    requires short_after { length after.now ≤ 16 }
    requires room { array_string_len line.old + 44 ≤ LINE_BYTES }
    ensures bytes { line.new.bytes ≡ line.old.bytes ++ before.now ++ decimal number ++ after.now }
    ensures len { array_string_len line.new ≤ array_string_len line.old + 44 }
{
    line.push_str(before);
    push_number(line, number);
    line.push_str(after);
}

/// Appends two numbers, each behind a short text.
fn push_two(line: &mut Line, before: &str, one: u32, between: &str, other: u32)
    requires short_before { length before.now ≤ 8 }
    requires short_between { length between.now ≤ 16 }
    requires room { array_string_len line.old + 64 ≤ LINE_BYTES }
    ensures bytes { line.new.bytes ≡ line.old.bytes ++ before.now ++ decimal one ++ between.now ++ decimal other }
    ensures len { array_string_len line.new ≤ array_string_len line.old + 64 }
{
    push_between(line, before, u64::from(one), between);
    push_number(line, u64::from(other));
}

/// Appends which entry names no vertex.
fn push_bad_edge(line: &mut Line, edge: &BadEdge)
    requires { array_string_len line.old + 100 ≤ LINE_BYTES }
    ensures bytes { line.new.bytes ≡ line.old.bytes ++ bad_entry_text edge.now }
    ensures len { array_string_len line.new ≤ array_string_len line.old + 100 }
{
    line.push_str("vertex ");
    push_number(line, u64::from(edge.v));
    line.push_str(" ");
    line.push_str(direction(edge.dir));
    line.push_str(" entry ");
    push_number(line, u64::from(edge.place));
    line.push_str(" target ");
    push_number(line, u64::from(edge.found));
}

/// Appends what is the matter with a drive.
fn push_drive(line: &mut Line, drive: u32, matter: &str)
    requires short { length matter.now ≤ 16 }
    requires room { array_string_len line.old + 44 ≤ LINE_BYTES }
    ensures bytes { line.new.bytes ≡ line.old.bytes ++ codes "drive " ++ decimal drive ++ matter.now }
    ensures len { array_string_len line.new ≤ array_string_len line.old + 44 }
{
    push_between(line, "drive ", u64::from(drive), matter);
}

/// Appends how many pages a drive has, and how many it needs.
fn push_short_drive(line: &mut Line, drive: u32, have: u32, need: u32)
    requires { array_string_len line.old + 100 ≤ LINE_BYTES }
    ensures bytes { line.new.bytes ≡ line.old.bytes ++ codes "drive " ++ decimal drive ++ codes " has " ++ decimal have ++ codes " pages, needs " ++ decimal need }
    ensures len { array_string_len line.new ≤ array_string_len line.old + 100 }
{
    push_two(line, "drive ", drive, " has ", have);
    line.push_str(" pages, needs ");
    push_number(line, u64::from(need));
}

/// Appends where the index of a direction is at fault.
fn push_bad_index(line: &mut Line, dir: Dir, place: u64)
    requires { array_string_len line.old + 100 ≤ LINE_BYTES }
    ensures bytes { line.new.bytes ≡ line.old.bytes ++ codes "bad " ++ direction_name dir ++ codes " index at " ++ decimal place }
    ensures len { array_string_len line.new ≤ array_string_len line.old + 100 }
{
    line.push_str("bad ");
    line.push_str(direction(dir));
    line.push_str(" index at ");
    push_number(line, place);
}

/// Appends what the refusal says.
fn push_refusal(line: &mut Line, refusal: &Refusal)
    requires { array_string_len line.old + 100 ≤ LINE_BYTES }
    ensures bytes { line.new.bytes ≡ line.old.bytes ++ refusal_text refusal.now }
    ensures len { array_string_len line.new ≤ array_string_len line.old + 100 }
{
    match *refusal {
        Refusal::Memory => line.push_str("memory"),
        Refusal::Words(fault) => {
            line.push_str("words ");
            push_word_fault(line, fault);
        }
        Refusal::InputFault => line.push_str("input failed"),
        Refusal::OutputFault => line.push_str("output failed"),
        Refusal::DriveFault(drive) => push_drive(line, drive, " failed"),
        Refusal::BadLine(number) => push_between(line, "line ", number, " not an edge"),
        Refusal::IdTooLarge(number) => push_between(line, "line ", number, " id too large"),
        Refusal::TooManyEdges(number) => push_between(line, "line ", number, " too many edges"),
        Refusal::TextTooLong => line.push_str("text too long"),
        Refusal::NotEmpty(drive) => push_drive(line, drive, " not empty"),
        Refusal::ShortDrive(drive, have, need) => push_short_drive(line, drive, have, need),
        Refusal::NoLabel(drive) => push_drive(line, drive, " has no label"),
        Refusal::WrongDrive(drive, is) => push_two(line, "drive ", drive, " is labelled ", is),
        Refusal::LabelDiffers(drive) => push_drive(line, drive, " label differs"),
        Refusal::BadHeader => line.push_str("bad header"),
        Refusal::BadVersion(found) => push_between(line, "version ", u64::from(found), " unknown"),
        Refusal::BadSections => line.push_str("bad sections"),
        Refusal::BadIndex(dir, place) => push_bad_index(line, dir, place),
        Refusal::BadSource(source, n) => push_two(line, "source ", source, " not below ", n),
        Refusal::BadEdge(edge) => push_bad_edge(line, &edge),
        Refusal::BadPadding(page) => push_between(line, "page ", u64::from(page), " padding"),
        Refusal::NotMirror(v) => push_between(line, "vertex ", u64::from(v), " not mirrored"),
    }
}

/// Writes the line of a refusal, which isn't the output's own: by one `write_all`.
pub fn write_refusal<K: Sink>(out: &mut K, refusal: &Refusal) -> Result<(), Failed>
    requires { refusal.now ≢ output_fault }
    ensures whole { OnOk result (K.written out.new ≡ grown (K.written out.old) (refusal_line refusal.now)) }
    ensures part { OnErr result (GrewByFirst (refusal_line refusal.now) (K.written out.old) (K.written out.new)) }
    ensures counted { Counts (K.faults out.old) (K.faults out.new) result }
{
    let mut line = Line::new();
    line.push_str("refused: ");
    push_refusal(&mut line, refusal);
    line.push_str("\n");
    write_all(out, line.as_bytes())
}
