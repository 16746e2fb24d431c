//! Files of programs without a header, written and loaded.

#[cfg(test)]
mod forms;
#[cfg(test)]
mod loading;
#[cfg(test)]
mod said;
