// The tests, a module for each part.

mod files;
mod words;
