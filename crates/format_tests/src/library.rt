//! Members of libraries and of archives, and the names of modules.

#[cfg(test)]
mod archives;
#[cfg(test)]
mod files;
#[cfg(test)]
mod growths;
#[cfg(test)]
mod libraries;
#[cfg(test)]
mod names;
