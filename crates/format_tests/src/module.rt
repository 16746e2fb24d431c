//! Object modules, read from their bytes.

#[cfg(test)]
mod built;
#[cfg(test)]
mod changed;
#[cfg(test)]
mod defaulted;
#[cfg(test)]
mod grouped;
#[cfg(test)]
mod modules;
#[cfg(test)]
mod told;
