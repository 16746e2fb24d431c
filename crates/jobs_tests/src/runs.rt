//! Runs of `doslink`, over a world in memory.

#[cfg(test)]
mod aliasing;
#[cfg(test)]
mod comdats;
#[cfg(test)]
mod declaring;
#[cfg(test)]
mod defaulting;
#[cfg(test)]
mod doubled;
#[cfg(test)]
mod forms;
#[cfg(test)]
mod fronts;
#[cfg(test)]
mod lengths;
#[cfg(test)]
mod lines;
#[cfg(test)]
mod looking;
#[cfg(test)]
mod modules;
#[cfg(test)]
mod naming;
#[cfg(test)]
mod packed;
#[cfg(test)]
mod records;
#[cfg(test)]
mod runs;
#[cfg(test)]
mod searching;
#[cfg(test)]
mod sums;
#[cfg(test)]
mod symbols;
#[cfg(test)]
mod tables;
#[cfg(test)]
mod world;
#[cfg(test)]
mod written;
