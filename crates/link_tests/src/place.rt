//! Object modules, read from their bytes and placed.

#[cfg(test)]
mod cases;
#[cfg(test)]
mod classes;
#[cfg(test)]
mod grouped;
#[cfg(test)]
mod growths;
#[cfg(test)]
mod laid;
#[cfg(test)]
mod large;
#[cfg(test)]
mod lengths;
#[cfg(test)]
mod names;
