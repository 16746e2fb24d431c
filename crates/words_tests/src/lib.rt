//! Words of the command lines of `omf` and of `doslink`, directives of response files, and lines of LINK and TLINK.
#![tactic(auto)]

mod doslink;
mod makefile;
mod words;
