//! The records that came after Intel's, read by their bytes, and each growth on the way refused in turn.

#[cfg(test)]
mod answers;
#[cfg(test)]
mod blocks;
#[cfg(test)]
mod bodies;
#[cfg(test)]
mod comments;
#[cfg(test)]
mod growths;
#[cfg(test)]
mod types;
