//! Maps of linked programs in the form of LINK and of TLINK.

#[cfg(test)]
mod details;
#[cfg(test)]
mod maps;
#[cfg(test)]
mod numbers;
