//! Order modules, read from their bytes and placed before the modules that they are made of.

#[cfg(test)]
mod cases;
#[cfg(test)]
mod made;
