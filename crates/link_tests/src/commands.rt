//! Tests of the commands, over inputs in memory.

#[cfg(test)]
mod answer;
#[cfg(test)]
mod checking;
#[cfg(test)]
mod failing;
#[cfg(test)]
mod hostile;
#[cfg(test)]
mod linking;
#[cfg(test)]
mod loading;
#[cfg(test)]
mod mapping;
#[cfg(test)]
mod names;
#[cfg(test)]
mod objects;
#[cfg(test)]
mod records;
#[cfg(test)]
mod tables;
