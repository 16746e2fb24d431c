//! Jobs of `omf` and runs of `doslink`, and the files of both, over a world in memory.
#![tactic(auto)]

mod dos;
mod files;
mod jobs;
mod runs;
