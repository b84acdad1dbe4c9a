//! The text of each call, from a sink in memory.

ghost use Rattle.fg_base.specs.declared.refusal.Refusal.TheVariants.{OutputFault as output_fault};
ghost use Rattle.std.specs.Prelude.{◌≢◌};

use crate::*;
use fg_base::{BadEdge, Dir, Failed, Opt, Refusal, VState, WordFault};
use fg_comps::Wcc;
use fg_model::{IterLine, Watch};
use fg_outside::MemSink;
use std::alloc::Global;
use std::test::Fail;

/// What components show of these are their numbers `a`.
const STATES: [VState; 2] = [
    VState {
        a: u64::MAX,
        b: 0,
        c: 0,
    },
    VState { a: 1, b: 0, c: 0 },
];

#[test]
fn the_lines_of_a_run(rt: HostRuntime) -> Result<(), Fail> {
    let alloc = rt.alloc();
    let mut out = MemSink::new(alloc, Vec::new(alloc));
    assert!(rt; write_head(&mut out, "rank", 2, 3, 4).is_ok());
    assert!(rt; write_end(&mut out, true, 5).is_ok());
    assert!(rt; write_end(&mut out, false, 6).is_ok());
    assert!(rt; write_stats(&mut out, 7, u64::MAX, 0, 18_446_744_073_709_551_614).is_ok());
    assert!(rt; write_sum(&mut out, &Wcc, &STATES).is_ok());
    let want =
        "program rank vertices 2 out 3 in 4\nsettled 5\nstopped 6\nstats reads 7 pages 18446744073709551615 runs 0 entries 18446744073709551614\nsum 18446744073709551616\n";
    assert_eq!(rt; out.written(), want.as_bytes());
    Ok(())
}

#[test]
fn what_a_watch_writes(rt: HostRuntime) -> Result<(), Fail> {
    let alloc = rt.alloc();
    let line = IterLine {
        number: 0,
        phase: 7,
        active: 2,
        messages: 3,
    };
    // the failing calls, whether values are asked for; the answer and the text
    let rows: [(u32, bool, Result<(), Failed>, &str); 3] = [
        (
            0,
            false,
            Ok(()),
            "iteration 0 phase 7 active 2 messages 3\n",
        ),
        (
            0,
            true,
            Ok(()),
            "iteration 0 phase 7 active 2 messages 3\n0 18446744073709551615\n1 1\n",
        ),
        (
            3,
            true,
            Err(Failed),
            "iteration 0 phase 7 active 2 messages 3\n0 18446744073709551615\n",
        ),
    ];
    for (fails, each, want, text) in rows {
        let mut out = MemSink::new(alloc, [fails].to_vec(alloc)?);
        let mut watch = ReportWatch::new(&Wcc, &mut out, each);
        assert_eq!(rt; watch.note(line, &STATES), want);
        assert_eq!(rt; out.written(), text.as_bytes());
    }
    Ok(())
}

/// Each refusal that isn't about the words, and its line.
const REFUSALS: [(Refusal, &str); 22] = [
    (Refusal::Memory, "refused: memory\n"),
    (Refusal::Words(WordFault::Parse), "refused: words parse\n"),
    (
        Refusal::Words(WordFault::Command),
        "refused: words command\n",
    ),
    (Refusal::InputFault, "refused: input failed\n"),
    (Refusal::DriveFault(15), "refused: drive 15 failed\n"),
    (
        Refusal::BadLine(u64::MAX),
        "refused: line 18446744073709551615 not an edge\n",
    ),
    (Refusal::IdTooLarge(2), "refused: line 2 id too large\n"),
    (Refusal::TooManyEdges(3), "refused: line 3 too many edges\n"),
    (Refusal::TextTooLong, "refused: text too long\n"),
    (Refusal::NotEmpty(0), "refused: drive 0 not empty\n"),
    (
        Refusal::ShortDrive(0, 4, 5),
        "refused: drive 0 has 4 pages, needs 5\n",
    ),
    (Refusal::NoLabel(1), "refused: drive 1 has no label\n"),
    (
        Refusal::WrongDrive(0, 1),
        "refused: drive 0 is labelled 1\n",
    ),
    (Refusal::LabelDiffers(1), "refused: drive 1 label differs\n"),
    (Refusal::BadHeader, "refused: bad header\n"),
    (Refusal::BadVersion(3), "refused: version 3 unknown\n"),
    (Refusal::BadSections, "refused: bad sections\n"),
    (
        Refusal::BadIndex(Dir::Out, 5),
        "refused: bad out index at 5\n",
    ),
    (
        Refusal::BadIndex(Dir::In, 9),
        "refused: bad in index at 9\n",
    ),
    (Refusal::BadSource(5, 5), "refused: source 5 not below 5\n"),
    (
        Refusal::BadEdge(BadEdge {
            v: 2,
            dir: Dir::Out,
            place: 0,
            found: 5,
        }),
        "refused: vertex 2 out entry 0 target 5\n",
    ),
    (
        Refusal::BadEdge(BadEdge {
            v: 4_294_967_295,
            dir: Dir::In,
            place: 4_294_967_294,
            found: 4_294_967_293,
        }),
        "refused: vertex 4294967295 in entry 4294967294 target 4294967293\n",
    ),
];

/// Each option, and its line where its value isn't in range.
const OPTIONS: [(Opt, &str); 22] = [
    (Opt::Program, "refused: words range program\n"),
    (Opt::Source, "refused: words range source\n"),
    (Opt::Max, "refused: words range max\n"),
    (Opt::Cut, "refused: words range cut\n"),
    (Opt::Each, "refused: words range each\n"),
    (Opt::Quiet, "refused: words range quiet\n"),
    (Opt::Workers, "refused: words range workers\n"),
    (Opt::Sets, "refused: words range sets\n"),
    (Opt::Ways, "refused: words range ways\n"),
    (Opt::Depth, "refused: words range depth\n"),
    (Opt::Shift, "refused: words range shift\n"),
    (Opt::Helpers, "refused: words range helpers\n"),
    (Opt::Stats, "refused: words range stats\n"),
    (Opt::Unit, "refused: words range unit\n"),
    (Opt::Number, "refused: words range number\n"),
    (Opt::Undirected, "refused: words range undirected\n"),
    (Opt::Input, "refused: words range input\n"),
    (Opt::Start, "refused: words range start\n"),
    (Opt::Nodes, "refused: words range nodes\n"),
    (Opt::Edges, "refused: words range edges\n"),
    (Opt::Drives, "refused: words range drives\n"),
    (Opt::Drive, "refused: words range drive\n"),
];

/// Whether the line of this refusal is this text.
fn is_line(alloc: Global, refusal: &Refusal, text: &str) -> bool
    requires { refusal.now ≢ output_fault }
{
    let mut out = MemSink::new(alloc, Vec::new(alloc));
    write_refusal(&mut out, refusal).is_ok() && out.written() == text.as_bytes()
}

#[test]
fn the_line_of_each_refusal(rt: HostRuntime) {
    for (refusal, text) in REFUSALS {
        if refusal != Refusal::OutputFault {
            assert!(rt; is_line(rt.alloc(), &refusal, text), "{text}");
        }
    }
}

#[test]
fn the_line_of_each_fault_of_an_option(rt: HostRuntime) {
    let alloc = rt.alloc();
    for (option, text) in OPTIONS {
        assert!(rt;
            is_line(alloc, &Refusal::Words(WordFault::Range(option)), text),
            "{text}"
        );
    }
    let extra = Refusal::Words(WordFault::Extra(Opt::Undirected));
    assert!(rt; is_line(alloc, &extra, "refused: words extra undirected\n"));
    let missing = Refusal::Words(WordFault::Missing(Opt::Source));
    assert!(rt; is_line(alloc, &missing, "refused: words missing source\n"));
}
