//! What a line of a text is.

ghost use Rattle.std.specs.Prelude.{◌≡◌, ◌<◌};
ghost use Rattle.fg_base.specs.declared.limits.TheConstants.{MAX_VERTICES};
ghost use Rattle.fg_text.specs.Line.{HasVertices};
ghost use Rattle.fg_text.specs.Text.{edge_between};

use fg_base::limits::MAX_VERTICES;

/// An edge as its line gives it: the third field is the weight, where there is one.
#[derive(Clone, Copy)]
pub(crate) struct Edge {
    pub source: u32,
    pub target: u32,
    pub weight: Option<u32>,
}

/// What a line is.
#[derive(Clone, Copy)]
pub(crate) enum Verdict {
    /// A comment, or nothing but blanks.
    Skipped,
    /// Not an edge.
    Broken,
    /// An edge, but with a vertex beyond the limit.
    TooLarge,
    Gives(Edge),
}

/// An edge between these vertices, where there can be such vertices.
pub(crate) fn edge_between(source: u64, target: u64, weight: Option<u32>) -> Verdict
    ensures verdict { result ≡ edge_between source target weight }
    ensures vertices { HasVertices result }
{
    if source >= u64::from(MAX_VERTICES) {
        return Verdict::TooLarge;
    }
    if target >= u64::from(MAX_VERTICES) {
        return Verdict::TooLarge;
    }
    Verdict::Gives(Edge {
        source: source as u32,
        target: target as u32,
        weight,
    })
}
