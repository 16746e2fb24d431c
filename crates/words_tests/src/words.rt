//! The words of the command line.

#[cfg(test)]
mod words;
