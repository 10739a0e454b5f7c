// The tests, a module for each part.

mod case_lines;
mod cases;
mod engine;
mod families;
mod fronts;
mod helpers;
mod in_place;
mod in_place_matrices;
mod in_place_memory;
mod in_place_rows;
mod laid;
mod lists;
mod own_lists;
mod readings;
mod row_sides;
mod sorted;
mod trees;
