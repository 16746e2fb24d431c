//! Tests of the lines of LINK and TLINK.

#[cfg(test)]
mod definitions;
#[cfg(test)]
mod link;
#[cfg(test)]
mod link_makefiles;
#[cfg(test)]
mod tlink;
#[cfg(test)]
mod tlink_makefiles;
