//! The requests of the drill.

ghost use Rattle.std.specs.Prelude.{◌≡◌, ◌≤◌, ◌<◌, ◌≤ℤ◌, pos};
ghost use Rattle.t7_eti.specs.Requests.{IsAskable};
ghost use Rattle.t7_eti.specs.Saying.{EachOrdinary, request_fields};
ghost use Rattle.t7_script.specs.Draws.{next_state};
ghost use Rattle.t7_drill.specs.Asking as spec;

use t7_eti::Request;
use t7_script::Draw;

/// The logon of a session.
pub fn logon(session: u32) -> Request
    requires { session < 4_294_967_295 }
    ensures request { result ≡ spec.logon session }
    ensures ordinary { EachOrdinary (request_fields result) }
    ensures askable { IsAskable result }
{
    Request::Logon {
        seq: 1,
        heart: 30_000,
        session,
    }
}

/// Request i of the first phase, from 1 on: an order of quantity 10 that trades with none.
pub fn opening(number: u32, i: u32) -> Request
    requires { number < 4_294_967_295 }
    ensures request { result ≡ spec.opening number i }
    ensures ordinary { EachOrdinary (request_fields result) }
    ensures askable { IsAskable result }
{
    let security = if i % 2 == 1 { 1001 } else { 1002 };
    let near = (i % 100) as i64;
    if i % 4 == 1 || i % 4 == 2 {
        order(number, security, 1, 1000 - near, 10)
    } else {
        order(number, security, 2, 2000 + near, 10)
    }
}

// An order, whose ClOrdID is its number.
fn order(number: u32, security: i64, side: u8, price: i64, qty: i64) -> Request
    requires number { number < 4_294_967_295 }
    requires side { side < 255 }
    requires security { pos 0 ≤ℤ security }
    requires price { pos 0 ≤ℤ price }
    requires qty { pos 0 ≤ℤ qty }
    ensures request { result ≡ Request.New number security side price qty number }
    ensures ordinary { EachOrdinary (request_fields result) }
    ensures askable { IsAskable result }
{
    Request::New {
        seq: number,
        security,
        side,
        price,
        qty,
        client: number as u64,
    }
}

// A price of the second phase.
fn draw_price(draw: &mut Draw) -> i64
    ensures price { result ≡ spec.price_at draw.old }
    ensures above { pos 0 ≤ℤ result }
    ensures state { draw.new ≡ next_state draw.old }
{
    1400 + draw.next(200) as i64
}

// A quantity of the second phase.
fn draw_quantity(draw: &mut Draw) -> i64
    ensures quantity { result ≡ spec.quantity_at draw.old }
    ensures above { pos 0 ≤ℤ result }
    ensures state { draw.new ≡ next_state draw.old }
{
    1 + draw.next(50) as i64
}

// A new order of the second phase.
fn draw_new(draw: &mut Draw, number: u32) -> Request
    requires { number < 4_294_967_295 }
    ensures request { result ≡ (spec.new_at number draw.old).request }
    ensures ordinary { EachOrdinary (request_fields result) }
    ensures askable { IsAskable result }
    ensures state { draw.new ≡ (spec.new_at number draw.old).draw }
{
    let security = 1001 + draw.next(2) as i64;
    let side = 1 + draw.next(2) as u8;
    let price = draw_price(draw);
    let qty = draw_quantity(draw);
    order(number, security, side, price, qty)
}

// A modification of one of the orders up to the last.
fn draw_modify(draw: &mut Draw, number: u32, last: u64) -> Request
    requires some { 1 ≤ last }
    requires last { last < 18_446_744_073_709_551_615 }
    requires number { number < 4_294_967_295 }
    ensures request { result ≡ (spec.modify_at number last draw.old).request }
    ensures ordinary { EachOrdinary (request_fields result) }
    ensures askable { IsAskable result }
    ensures state { draw.new ≡ (spec.modify_at number last draw.old).draw }
{
    let order = 1 + draw.next(last);
    let price = draw_price(draw);
    let qty = draw_quantity(draw);
    Request::Modify {
        seq: number,
        order,
        client: number as u64,
        price,
        qty,
    }
}

// A deletion of one of the orders up to the last.
fn draw_delete(draw: &mut Draw, number: u32, last: u64) -> Request
    requires some { 1 ≤ last }
    requires last { last < 18_446_744_073_709_551_615 }
    requires number { number < 4_294_967_295 }
    ensures request { result ≡ (spec.delete_at number last draw.old).request }
    ensures ordinary { EachOrdinary (request_fields result) }
    ensures askable { IsAskable result }
    ensures state { draw.new ≡ (spec.delete_at number last draw.old).draw }
{
    let order = 1 + draw.next(last);
    Request::Delete {
        seq: number,
        order,
        client: number as u64,
    }
}

/// What a step of the second phase asks for, by the kind that was drawn; `last` is the last OrderID, 0 where no order was accepted.
pub fn draw_request(draw: &mut Draw, kind: u64, number: u32, last: u64) -> Request
    requires number { number < 4_294_967_295 }
    requires last { last < 18_446_744_073_709_551_615 }
    ensures request { result ≡ (spec.request_at kind number last draw.old).request }
    ensures ordinary { EachOrdinary (request_fields result) }
    ensures askable { IsAskable result }
    ensures state { draw.new ≡ (spec.request_at kind number last draw.old).draw }
{
    if kind <= 5 || last == 0 {
        draw_new(draw, number)
    } else if kind <= 7 {
        draw_modify(draw, number, last)
    } else {
        draw_delete(draw, number, last)
    }
}
