//! The printed forms.

#[cfg(test)]
mod details;
#[cfg(test)]
mod listing;
#[cfg(test)]
mod print;
