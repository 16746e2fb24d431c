//! Records read and written by their bytes, and each growth on the way refused in turn.

#[cfg(test)]
mod answers;
#[cfg(test)]
mod bodies;
#[cfg(test)]
mod devices;
#[cfg(test)]
mod growths;
#[cfg(test)]
mod repeated;
