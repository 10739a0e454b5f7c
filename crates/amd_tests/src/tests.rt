// The tests, a module for each part.

mod can_24;
mod comparison;
mod factors;
mod holding;
mod input;
mod memory;
mod patterns;
mod small_matrices;
mod statuses;
mod wide_numbers;
mod worked;
mod workspace;
