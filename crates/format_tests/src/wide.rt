//! Records of 32 bits read by their bytes, and each growth on the way refused in turn.

#[cfg(test)]
mod answers;
#[cfg(test)]
mod bodies;
#[cfg(test)]
mod data;
#[cfg(test)]
mod growths;
