//! Jobs and their files, over a world in memory.

#[cfg(test)]
mod files;
#[cfg(test)]
mod jobs;
