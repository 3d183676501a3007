//! The best alternative to each word of a text's best path: the best path that segments the text
//! differently there, and the words in which it differs from the best path.

mod all_rivals;
mod best_steps;
mod crossing;
pub mod laws;
mod neighbor;
mod nodes_by_position;
mod nodes_with_neighbors;
mod places;
mod predecessors;
mod rival;
mod rival_path;
mod rivals;
mod step;
mod successors;
mod total;
mod walks;

pub use rival::{Rival, best_rival};
pub use rival_path::{RivalPath, STEPS_MAX};
pub use rivals::{Rivals, rivals_of};
pub use step::PathStep;
