//! Tests of the words of `doslink` and of the directives of response files.

#[cfg(test)]
mod directives;
#[cfg(test)]
mod grammar;
#[cfg(test)]
mod makefiles;
#[cfg(test)]
mod responses;
#[cfg(test)]
mod words;
