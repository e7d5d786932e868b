//! Tests of threads: what is built side by side, what enters a gate, what is drawn from one counter, and that the
//! number of workers changes no byte of a large part.
#![tactic(auto)]

#[cfg(test)]
mod builds;
#[cfg(test)]
mod draws;
#[cfg(test)]
mod gates;
#[cfg(test)]
mod outputs;
#[cfg(test)]
mod wide;
#[cfg(test)]
mod workers;
