//! Stacks with lengths that are asked for.

#[cfg(test)]
mod cases;
#[cfg(test)]
mod told;
