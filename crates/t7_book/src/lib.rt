//! The price-time book of one product: it takes commands, and gives the messages of the market data feed,
//! the notes for the owners of the orders, and an answer.
//!
//! Contracts see a book as one plain list of orders, in the order of the book, with the last id and the last stamp beside it.
#![tactic(auto)]

mod arrival;
mod book;
mod command;
mod commit;
mod kept;
mod laws;
mod ledger;
mod order;
mod orders;
pub mod priority;
mod removal;
mod sides;
mod trade;

pub use book::Book;
pub use command::{BookRefusal, Command, Done, Note};
pub use laws::{
    books_left_are_whole, commands_add_their_steps, commands_are_short, markets_are_books,
    messages_are_about_the_product, messages_are_few, orders_trade_in_turn, traces_grow,
    trades_leave_books,
};
pub use ledger::MOST_OF_SECURITY;
pub use order::Order;
pub use orders::BookWalk;
pub use sides::Sides;
pub use t7_levels::MOST_ORDERS;
pub use trade::Trade;

#[cfg(test)]
mod tests;
