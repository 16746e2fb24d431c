//! MZ files, written, read and loaded.

#[cfg(test)]
mod files;
