//! Which members of libraries a link takes, and the names that stay missing.

#[cfg(test)]
mod growths;
#[cfg(test)]
mod links;
#[cfg(test)]
mod searches;
