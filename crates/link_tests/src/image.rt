//! Programs, built from object modules.

#[cfg(test)]
mod fixups;
#[cfg(test)]
mod grouped;
#[cfg(test)]
mod overflow;
#[cfg(test)]
mod programs;
#[cfg(test)]
mod said;
