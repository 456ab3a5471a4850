//! Worked examples with what each command gives, and the limits.

mod examples;
mod fixture;
mod limits;
mod rows;
