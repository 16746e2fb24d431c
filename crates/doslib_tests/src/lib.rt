//! What `doslib` prints of files and programs, and its runs over a world in memory.
#![tactic(auto)]

#[cfg(test)]
mod comparing;
#[cfg(test)]
mod files;
#[cfg(test)]
mod growths;
#[cfg(test)]
mod libraries;
#[cfg(test)]
mod list;
#[cfg(test)]
mod matching;
#[cfg(test)]
mod program;
#[cfg(test)]
mod runs;
#[cfg(test)]
mod searching;
#[cfg(test)]
mod show;
