//! The work that is the same for whichever program is picked.

/// Does this work with the program that is picked.
macro_rules! with_picked {
    ($pick:expr, $program:ident => $work:expr) => {
        match $pick {
            fg_words::Pick::Bfs(source) => {
                let $program = fg_walks::Bfs { source };
                $work
            }
            fg_words::Pick::Sssp(source) => {
                let $program = fg_walks::Sssp { source };
                $work
            }
            fg_words::Pick::Wcc => {
                let $program = fg_comps::Wcc;
                $work
            }
            fg_words::Pick::Core => {
                let $program = fg_comps::Core;
                $work
            }
            fg_words::Pick::Rank(cut) => {
                let $program = fg_rank::Rank { cut };
                $work
            }
        }
    };
}

pub(crate) use with_picked;
