//! Files that are read and looked up, and what stands where a file is to be written.

#[cfg(test)]
mod files;
#[cfg(test)]
mod modules;
