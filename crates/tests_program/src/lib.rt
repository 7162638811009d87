//! Runs of the program over readers and writers that a trace can't show: slow ones, failing ones, and a clock at its end.
//!
//! They stand above what they run, so that it is proved once; runs over whole texts are the traces of `tests/rows`.
#![tactic(auto)]

#[cfg(test)]
mod tests;
