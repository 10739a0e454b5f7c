//! What the command `rimopaku` tells of a matrix, of an ordering and of the factor under it: facts, figures, rows,
//! columns, trees and the pattern, as text and as JSON, and pictures as SVG.
//!
//! What is told stands in functions over writers, with contracts: each writes its text, word for word. Of the pictures
//! contracts tell which cells are marked (`entry_cells`, `fills`), which of three colours a cell has (`kinds`), which
//! rectangles a shape of cells has (`shapes`), where the blocks of a tree lie (`layout`), and which front a cell shows
//! (`canvas`); how they stand on the page (`drawing`, `tree_picture`) is tested. Which parts an answer has is up to
//! `amd_command`, which also works out what the factor needs.
#![tactic(auto)]

pub mod bandwidths;
pub mod canvas;
pub mod compare;
mod components;
pub mod description;
pub mod drawing;
pub mod entry_cells;
pub mod factor_json;
pub mod factor_text;
pub mod facts;
pub mod figures;
pub mod fills;
pub mod grids;
pub mod json;
pub mod kinds;
pub mod layout;
pub mod names;
pub mod pattern;
mod profile;
pub mod rows;
pub mod shapes;
mod signs;
mod sources;
pub mod symmetry;
pub mod tree;
pub mod tree_picture;
