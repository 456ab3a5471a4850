//! Short words for the values of the tests.

use std::alloc::Global;
use std::test::Fail;
use t7_base::{Moment, Price, Product, ProductRefusal, Qty, SecurityId, SessionId, Stamp};

pub const FIRST: SecurityId = SecurityId(1001);

pub const SECOND: SecurityId = SecurityId(1002);

pub const THIRD: SecurityId = SecurityId(1003);

pub const DAY: SessionId = SessionId(21);

pub const NIGHT: SessionId = SessionId(22);

/// Three securities and two sessions.
pub fn product(alloc: Global) -> Result<Product, ProductRefusal> {
    Product::read(
        alloc,
        b"product,7\nwindow,4\npackets,8\ndatagram,1472\nsecurity,1001,1\nsecurity,1002,1\nsecurity,1003,1\nsession,21\nsession,22\n",
    )
}

pub fn price(number: i64) -> Result<Price, Fail> {
    Ok(Price::new(number).ok_or("price")?)
}

pub fn qty(number: i64) -> Result<Qty, Fail> {
    Ok(Qty::new(number).ok_or("quantity")?)
}

pub fn stamp(number: u64) -> Result<Stamp, Fail> {
    Ok(Stamp::new(number).ok_or("stamp")?)
}

pub fn moment(number: u64) -> Result<Moment, Fail> {
    Ok(Moment::new(number).ok_or("moment")?)
}
