//! Tests of what can't be told as text: real files, a depot and a sink that take little, calls that fail by their
//! numbers, and the calls of the library for C.
#![tactic(auto)]

#[cfg(test)]
mod files;
#[cfg(test)]
mod lending;
#[cfg(test)]
mod lines;
#[cfg(test)]
mod memory;
