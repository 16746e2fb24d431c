//! The map of linked programs.

#[cfg(test)]
mod maps;
