// The tests, a module for each part.

mod answers;
mod choices;
mod desk;
mod files;
mod heard;
mod outputs;
mod pictures;
mod runs;
mod shapes;
