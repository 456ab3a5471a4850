//! Short days at the calls: what the member shows after each, and what it counted.

mod days;
mod fixture;
