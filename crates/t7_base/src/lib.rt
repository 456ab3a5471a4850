//! What every layer shares: values with their ranges, the order as the feed shows it, the messages of the live channel,
//! the product, and the outside as traits with their forms in memory and their real forms.
#![tactic(auto)]

mod ids;
mod laws;
mod memory;
mod note;
mod octet;
mod outside;
mod product;
mod product_file;
mod public;
mod real;
mod values;

pub use ids::{Channel, Feed, OrderId, SecurityId, SessionId, Side};
pub use laws::{
    puts_within_the_room_are_told, takes_within_the_room_are_told, the_first_fault_is_told,
};
pub use memory::{MemoryFiles, MemorySink};
pub use octet::Octets;
pub use outside::{Failed, Files, Sink, Taken};
pub use product::{MOST_DATAGRAM, Product, ProductRefusal, ProductWhy};
pub use public::{Public, Resting};
pub use real::{RealFiles, RealSink};
pub use values::{Moment, Price, Qty, Stamp};

#[cfg(test)]
mod tests;
