//! Communal variables: what modules declare, what a program has of them, and the module that has them.

#[cfg(test)]
mod cases;
#[cfg(test)]
mod growths;
#[cfg(test)]
mod hashes;
#[cfg(test)]
mod limits;
#[cfg(test)]
mod told;
