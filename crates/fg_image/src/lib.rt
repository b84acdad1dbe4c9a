//! An image as bytes: its header page, the graph in its sections, and the image that is made of edges.
//!
//! Below stand the base, the model's graph and edges, the index and the striping. What opens an image reads its [`Header`],
//! which tells where the sections stand; `graph_of` cuts the lists of a whole image in memory out of them, and
//! `make_image` spells the image of edges, whose graph is theirs again; `image_pages` tells its pages without making it.
//! `check_image` finds the first fault of an image, and `check_sections` that of one whose header and index are read already.
#![tactic(auto)]

mod checking;
mod cut;
mod header;
mod keys;
mod making;
mod mirror;
mod parts;
mod place;
mod spell;
mod tally;
mod targets;
#[cfg(test)]
mod tests;
mod turned;

pub use checking::{check_image, check_sections};
pub use cut::{cut_graph, entry_at, entry_bytes, first_page_of, graph_of};
pub use header::Header;
pub use making::{image_pages, make_image};
