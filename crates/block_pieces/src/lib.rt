//! Laws of what a block's file means: its clocks, its requirements, and its paths.
#![tactic(auto)]

mod laws;

pub use laws::{
    block_clocks_reach, block_paths_are_pieces, files_keep_the_piece_law, files_read_as_meant,
    layered_designs_have_tables, table_of_requirements,
};
