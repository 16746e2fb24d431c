//! Libraries that are made of modules, and lists of modules that are changed.

#[cfg(test)]
mod changes;
#[cfg(test)]
mod made;
