//! The responses that a client gathered of its session.

ghost use Rattle.std.specs.Prelude.{◌≡◌, ◌+◌, length, OnErr, IfOk, Ok, Err, []};
ghost use Rattle.t7_recover.specs.Gathering.{gathered_with, offered_as};

use std::alloc::{AllocError, Global};
use std::marker::Model;
use t7_eti::Kept;

/// What becomes of a response that is offered under its number.
#[derive(Clone, Copy, Debug, PartialEq, Eq)]
pub enum Offered {
    /// Its number is one above the list's length: it is appended.
    Next,
    /// Its number is at most the list's length: it changes nothing.
    Old,
    /// A response before it is missing: it changes nothing.
    Ahead,
}

/// The responses of a session that a client gathered, from number 1 on, with none missing between them.
///
/// Contracts see it as their list.
#[derive(Debug, Drop)]
pub struct Gathered {
    kept: Vec<Kept>,
}

impl Model for Gathered {
    ghost use Rattle.std.specs.Prelude.{List};
    ghost use Rattle.t7_eti.specs.declared.response.Kept.{Kept};

    ghost Value = { List Kept };

    ghost view = { λ g. g.kept.items };
}

impl Gathered {
    /// An empty list.
    ///
    /// An error comes only where memory is wanting.
    pub fn new(alloc: Global) -> Result<Gathered, AllocError>
        ensures { IfOk result (λ gathered. gathered ≡ []) }
    {
        Ok(Gathered {
            kept: Vec::new(alloc),
        })
    }

    /// Offers a response under its number, of which the first has 1. It is appended exactly where it is the next.
    ///
    /// An error comes only where memory is wanting to append it; then the list is as before. A response that changes nothing
    /// takes no memory.
    pub fn offer(&mut self, number: u128, what: Kept) -> Result<Offered, AllocError>
        ensures offered { IfOk result (λ offered. offered ≡ offered_as self.old number) }
        ensures list { IfOk result (λ _. self.new ≡ gathered_with self.old number what) }
        ensures wanting { OnErr result (offered_as self.old number ≡ Offered.Next) }
        ensures unchanged { OnErr result (self.new ≡ self.old) }
    {
        let length = self.kept.len() as u128;
        if number <= length {
            return Ok(Offered::Old);
        }
        if number > length + 1 {
            return Ok(Offered::Ahead);
        }
        self.kept.push(what)?;
        Ok(Offered::Next)
    }

    /// The responses, in the order of their numbers. No memory is taken.
    pub fn list(&self) -> &[Kept]
        ensures { result.now ≡ self.now }
    {
        &self.kept
    }
}
