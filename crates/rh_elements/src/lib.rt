//! Sheets of memory as they are written, element by element.
#![tactic(auto)]

mod arrows;
mod attributes;
mod boxes;
mod cards;
mod chart;
mod escape;
mod figures;
mod frames;
mod lenses;
mod links;
mod markup;
mod notes;
mod pieces;
mod pool;
mod remarks;
mod reply;
mod rows;
mod sheet;
mod steps;
mod tables;
mod tints;

pub use arrows::{Slide, print_slide_arrow};
pub use boxes::{Extent, LONGEST_CLASS, print_box, print_words};
pub use cards::{Card, Look, print_high_card, print_low_card};
pub use chart::{
    Ends, Stroke, is_lost, print_beat, print_life, print_message_arrow, print_message_words,
};
pub use escape::{add_escaped, put_between, put_escaped};
pub use figures::{print_described, print_figure_end, print_figure_open};
pub use frames::{band_height, foot, height, page_in, row_of, row_y, shown_rows, top};
pub use lenses::{print_lens, print_lens_above, print_lens_below, print_tick};
pub use links::{add_step_link, print_numbered_link};
pub use markup::{add_point, print_change, print_heading, print_path};
pub use notes::{followed, is_queued, place_among};
pub use pieces::{
    add_tip, classes_of, fitting, high_in, kind_class, low_in, print_piece, print_pieces,
};
pub use pool::{print_grid, print_pool_side, print_squares, print_tags};
pub use remarks::print_remark;
pub use rows::{Plot, print_row, print_rows};
pub use sheet::{print_foot, print_head};
pub use steps::{print_said, print_step_open, print_still};
pub use tables::{print_letterbox_row, print_transfer_row};
pub use tints::{Tint, add_tint};
