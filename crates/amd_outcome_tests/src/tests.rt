// The tests, a module for each part.

mod comparison;
mod counts;
mod demo_texts;
mod demos;
mod earlier;
mod errors;
mod expansion;
mod jumbled_texts;
mod large;
mod lengths;
mod memory;
mod numbers;
mod orders;
mod ranges;
mod refusals;
mod shared;
mod supernodes;
mod texts;
mod worked;
mod workspace;
