//! Whole texts: what they say, in pieces of every size, and what a source is left with; the generator's text and edges.

use crate::generator::Generator;
use crate::{generate, generate_edges, read_edges};
use fg_base::Refusal;
use fg_model::{Edges, Pair};
use fg_outside::{MemSink, MemSource};
use std::alloc::{AllocError, Global};
use std::test::Fail;

/// A source of this text, which gives so many bytes at a time and fails at this call, if it isn't 0.
fn source(alloc: Global, text: &str, piece: usize, fails: u32) -> Result<MemSource, AllocError> {
    let bytes = text.as_bytes().to_vec(alloc)?;
    Ok(MemSource::new(alloc, bytes, piece.max(1), [fails].to_vec(alloc)?))
}

/// What was read, as a line: the number of vertices, `plain` or `weighted`, and the pairs with their weights; or the refusal.
fn shown(alloc: Global, read: &Result<Edges, Refusal>) -> Result<String, AllocError> {
    let edges = match read {
        Ok(edges) => edges,
        Err(refusal) => return format!(in alloc; "{refusal}"),
    };
    let n = edges.n();
    let kind = if edges.is_weighted() {
        "weighted"
    } else {
        "plain"
    };
    let mut line = format!(in alloc; "{n} {kind}")?;
    for pair in edges.pairs() {
        let Pair {
            source,
            target,
            weight,
        } = *pair;
        let pair = format!(in alloc; ", {source} {target} {weight}")?;
        line.push_str(pair.as_str())?;
    }
    Ok(line)
}

#[test]
fn reads_texts_in_pieces_of_every_size(rt: HostRuntime) -> Result<(), Fail> {
    let alloc = rt.alloc();
    let texts = [
        ("", "0 plain"),
        ("\n\n", "0 plain"),
        (
            "0 1\n0 2\n1 3\n2 3\n3 4\n",
            "5 plain, 0 1 1, 0 2 1, 1 3 1, 2 3 1, 3 4 1",
        ),
        (
            "3 4\n2 3\n1 3\n0 2\n0 1",
            "5 plain, 0 1 1, 0 2 1, 1 3 1, 2 3 1, 3 4 1",
        ),
        ("0 0", "1 plain, 0 0 1"),
        (
            "# Directed graph\r\n# FromNodeId\tToNodeId\r\n0\t1\t7\r\n0 1 3\r\n\r\n1\t0",
            "2 weighted, 0 1 3, 1 0 1",
        ),
        (
            "0 1 5\n0 2 1\n2 1 0\n1 2 0\n",
            "3 weighted, 0 1 5, 0 2 1, 1 2 0, 2 1 0",
        ),
        ("0 1 3\n0 1 7\n0 1 5\n", "2 weighted, 0 1 3"),
        ("0 1\n0 1 7\n", "2 weighted, 0 1 1"),
        (" \t 0007\t \t08 \n\t\n  \r\n", "9 plain, 7 8 1"),
        ("0 16777215", "16777216 plain, 0 16777215 1"),
        ("1 2 4294967295", "3 weighted, 1 2 4294967295"),
        ("#0 x\n1 2\r", "3 plain, 1 2 1"),
        ("1 x", "line 1 not an edge"),
        ("0 1\n\n#\n7\n", "line 4 not an edge"),
        ("1 2 3 4", "line 1 not an edge"),
        ("1 2 4294967296", "line 1 not an edge"),
        (
            "99999999 2 99999999999999999999999999",
            "line 1 not an edge",
        ),
        ("-1 2", "line 1 not an edge"),
        ("1 +2", "line 1 not an edge"),
        ("1,2", "line 1 not an edge"),
        ("1 2\r\r\n", "line 1 not an edge"),
        ("1 2\r3\n", "line 1 not an edge"),
        (" # 1 2\n", "line 1 not an edge"),
        ("\r#\n", "line 1 not an edge"),
        ("1 2\r \n", "line 1 not an edge"),
        ("0 16777216", "line 1 id too large"),
        (
            "1 2\n99999999999999999999999999 2\n3 x\n",
            "line 2 id too large",
        ),
        ("1 4294967297", "line 1 id too large"),
    ];
    for (text, want) in texts {
        for piece in [1, 2, 3, 7, 4096] {
            let read = read_edges(alloc, &mut source(alloc, text, piece, 0)?, false);
            let line = shown(alloc, &read)?;
            assert_eq!(rt; line.as_str(), want, "of {text:?} in pieces of {piece}");
        }
    }
    Ok(())
}

#[test]
fn an_undirected_edge_is_a_pair_both_ways_and_a_loop_is_one(rt: HostRuntime) -> Result<(), Fail> {
    let alloc = rt.alloc();
    let text = "2 0 4\n1 1 5\n0 2 3\n0 1\n";
    let read = read_edges(alloc, &mut source(alloc, text, 4096, 0)?, true);
    let line = shown(alloc, &read)?;
    let want = "3 weighted, 0 1 1, 0 2 3, 1 0 1, 1 1 5, 2 0 3";
    assert_eq!(rt; line.as_str(), want);
    Ok(())
}

#[test]
fn reading_stops_with_the_piece_in_which_a_refused_line_ends(rt: HostRuntime) -> Result<(), Fail> {
    let alloc = rt.alloc();
    for (piece, left) in [(1, "3 4\n5 6\n"), (4, "4\n5 6\n"), (4096, "")] {
        let mut source = source(alloc, "1 2\nx\n3 4\n5 6\n", piece, 0)?;
        let read = read_edges(alloc, &mut source, false);
        let line = shown(alloc, &read)?;
        assert_eq!(rt; line.as_str(), "line 2 not an edge");
        assert_eq!(rt; source.left(), left.as_bytes(), "in pieces of {piece}");
        assert_eq!(rt; source.faults(), 0);
    }
    Ok(())
}

#[test]
fn a_source_that_fails_is_an_input_fault(rt: HostRuntime) -> Result<(), Fail> {
    let alloc = rt.alloc();
    let calls = [
        (1, "input failed", 1),
        (2, "input failed", 1),
        (3, "input failed", 1),
        (4, "3 plain, 0 1 1, 1 2 1", 0),
    ];
    for (fails, want, faults) in calls {
        let mut source = source(alloc, "0 1\n1 2\n", 4, fails)?;
        let read = read_edges(alloc, &mut source, false);
        let line = shown(alloc, &read)?;
        assert_eq!(rt; line.as_str(), want, "call {fails} fails");
        assert_eq!(rt; source.faults(), faults, "call {fails} fails");
    }
    Ok(())
}

#[test]
fn generates_the_words_of_a_start(rt: HostRuntime) -> Result<(), Fail> {
    // Modulo this number each of these words is itself.
    let mut generator = Generator::new(42, u32::MAX);
    for (source, target) in [
        (0xa15c_02b7, 0x7b47_f409),
        (0xba1d_3330, 0x83d2_f293),
        (0xbfa4_784b, 0xcbed_606e),
    ] {
        let edge = generator.next_edge();
        assert_eq!(rt; (edge.source, edge.target), (source, target));
        assert!(rt; edge.weight.is_none());
    }
    Ok(())
}

#[test]
fn generates_the_text_of_a_start(rt: HostRuntime) -> Result<(), Fail> {
    let alloc = rt.alloc();
    let text = "# gen 42 10 3\n3 7\n4 5\n5 6\n";
    for (fails, want, left) in [
        (0, Ok(()), text),
        (1, Err(Refusal::OutputFault), ""),
        (2, Err(Refusal::OutputFault), "# gen 42 10 3\n"),
        (4, Err(Refusal::OutputFault), "# gen 42 10 3\n3 7\n4 5\n"),
    ] {
        let mut sink = MemSink::new(alloc, [fails].to_vec(alloc)?);
        assert_eq!(rt; generate(42, 10, 3, &mut sink), want, "call {fails} fails");
        assert_eq!(rt; sink.written(), left.as_bytes(), "call {fails} fails");
    }
    Ok(())
}

#[test]
fn generated_edges_are_those_of_the_text(rt: HostRuntime) -> Result<(), Fail> {
    let alloc = rt.alloc();
    for undirected in [false, true] {
        let mut sink = MemSink::new(alloc, Vec::new(alloc));
        assert_eq!(rt; generate(7, 20, 300, &mut sink), Ok(()));
        let bytes = sink.written().to_vec(alloc)?;
        let mut source = MemSource::new(alloc, bytes, 4096, Vec::new(alloc));
        let read = shown(alloc, &read_edges(alloc, &mut source, undirected))?;
        let made = shown(alloc, &generate_edges(alloc, 7, 20, 300, undirected))?;
        assert_eq!(rt; made.as_str(), read.as_str());
    }
    let made = shown(alloc, &generate_edges(alloc, 42, 10, 3, false))?;
    assert_eq!(rt; made.as_str(), "8 plain, 3 7 1, 4 5 1, 5 6 1");
    let made = shown(alloc, &generate_edges(alloc, 42, 10, 0, true))?;
    assert_eq!(rt; made.as_str(), "0 plain");
    Ok(())
}
