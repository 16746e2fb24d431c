//! Modules as they are given, held against what they say in records of the fourteen.

#[cfg(test)]
mod comdats;
#[cfg(test)]
mod debug;
#[cfg(test)]
mod fates;
#[cfg(test)]
mod forms;
#[cfg(test)]
mod growths;
#[cfg(test)]
mod modules;
#[cfg(test)]
mod names;
#[cfg(test)]
mod narrow;
#[cfg(test)]
mod records;
#[cfg(test)]
mod renamed;
#[cfg(test)]
mod tables;
#[cfg(test)]
mod taken;
