//! Stamps out of order, each misfit once, and the limit.

mod fixture;
mod late;
mod limit;
mod misfits;
