//! Names of files as DOS has them.

#[cfg(test)]
mod names;
