//! The lines of faults.

#[cfg(test)]
mod fault;
