//! Plain data of a graph and of a vertex program.

/// One entry of a vertex's list: in an out-list `target` is where the edge leads, in an in-list where it comes from.
#[derive(Clone, Copy, PartialEq, Eq, Debug)]
pub struct Entry {
    pub target: u32,
    pub weight: u32,
}

/// One of a vertex's two lists.
#[derive(Clone, Copy, PartialEq, Eq, Debug)]
pub enum Dir {
    Out,
    In,
}

/// The lists that a run of a vertex goes over; with `Both` the out-list comes first.
#[derive(Clone, Copy, PartialEq, Eq, Debug)]
pub enum Need {
    Out,
    In,
    Both,
}

/// The state of one vertex: three numbers whose meaning is the vertex program's.
#[derive(Clone, Copy, PartialEq, Eq, Debug)]
pub struct VState {
    pub a: u64,
    pub b: u64,
    pub c: u64,
}

/// What is printed of a vertex.
#[derive(Clone, Copy, PartialEq, Eq, Debug)]
pub enum Value {
    Absent,
    One(u64),
    Two(u64, u64),
}

/// An entry whose target is no vertex: the entry at `place` of the list `dir` of `v` names `found`.
#[derive(Clone, Copy, PartialEq, Eq, Debug)]
pub struct BadEdge {
    pub v: u32,
    pub dir: Dir,
    pub place: u32,
    pub found: u32,
}
