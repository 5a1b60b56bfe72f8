//! Tests of the public calls of the libraries: what they print, that a failed write is reported, and that they return
//! with ample memory. They are a crate of their own, so that the libraries aren't proved a second time for them.
//! Lists are written by hand, so that a wrong table is seen, except those of `known_triples` and `all_names`.
#![tactic(auto)]

#[cfg(test)]
mod all_names;
#[cfg(test)]
mod callers;
#[cfg(test)]
mod json;
#[cfg(test)]
mod known_triples;
#[cfg(test)]
mod names;
#[cfg(test)]
mod printing;
#[cfg(test)]
mod queries;
#[cfg(test)]
mod reading;
#[cfg(test)]
mod systems;
#[cfg(test)]
mod values;
#[cfg(test)]
mod vendors;
