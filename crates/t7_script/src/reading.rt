//! The event of a line.

ghost use Rattle.std.specs.Prelude.{◌≡◌, option_map};
ghost use Rattle.t7_script.specs.declared.event.Event.TheVariants as event;
ghost use Rattle.t7_script.specs.Cells as cell;
ghost use Rattle.t7_script.specs.Events as spec;
ghost use Rattle.t7_script.specs.Inside.{cells_in};

use crate::cells::{
    Cells, OrderCells, byte_count, client, connection, feed, first_cell, forged, moment, number,
    piece, price, quantity, security, session, side,
};
use crate::event::{Event, LineRefusal};
use crate::words::{Word, word_of};
use std::alloc::Global;
use t7_base::{Feed, Moment, Product};

/// The event of a line, read by the product and the moment of the last TICK; or the first test that the line fails, `Event` or
/// `Number`. `Memory` comes only where there is no room for the bytes of an IN or a FORGE.
pub fn read_event(
    alloc: Global,
    product: &Product,
    moment: Moment,
    line: &[u8],
) -> Result<Event, LineRefusal>
    ensures { spec.IsRead (spec.event_of (record { listing = product.now; moment = moment }) line.now) result }
{
    let (first, cells) = first_cell(line);
    match word_of(first) {
        Some(word) => read_cells(alloc, product, moment, word, cells),
        None => Err(LineRefusal::Event),
    }
}

// The event of a word and the cells behind it.
fn read_cells(
    alloc: Global,
    product: &Product,
    last: Moment,
    word: Word,
    cells: Cells<'_>,
) -> Result<Event, LineRefusal>
    ensures { spec.IsRead (spec.event_with (record { listing = product.now; moment = last }) word cells.entry) result }
{
    match word {
        Word::Raw => alone(Event::Raw, cells),
        Word::Open => opens(cells),
        Word::In => input(alloc, cells),
        Word::Cut => cut(cells),
        Word::Tick => tick(last, cells),
        Word::Snap => alone(Event::Snap, cells),
        Word::Beat => alone(Event::Beat, cells),
        Word::Clear => clear(product, cells),
        Word::Deliver(feed) => deliver(feed, cells),
        Word::Forge => forge(alloc, cells),
        Word::Dial => dial(product, cells),
        Word::Order => order(product, cells),
        Word::Up => up(cells),
        Word::Down => down(cells),
        Word::Show => alone(Event::Show, cells),
        Word::List => alone(Event::List, cells),
    }
}

// An event that has no cells.
fn alone(event: Event, cells: Cells<'_>) -> Result<Event, LineRefusal>
    ensures { result ≡ spec.alone event cells.entry }
{
    if cells.is_none() {
        Ok(event)
    } else {
        Err(LineRefusal::Event)
    }
}

fn opens(cells: Cells<'_>) -> Result<Event, LineRefusal>
    ensures { result ≡ spec.with_cells (cell.one_of cells.entry) (λ c. option_map event.Opens (cell.connection c)) }
{
    let Some(cell) = cells.one() else {
        return Err(LineRefusal::Event);
    };
    match connection(cell) {
        Some(conn) => Ok(Event::Opens { conn }),
        None => Err(LineRefusal::Number),
    }
}

fn cut(cells: Cells<'_>) -> Result<Event, LineRefusal>
    ensures { result ≡ spec.with_cells (cell.one_of cells.entry) (λ c. option_map event.Cut (cell.connection c)) }
{
    let Some(cell) = cells.one() else {
        return Err(LineRefusal::Event);
    };
    match connection(cell) {
        Some(conn) => Ok(Event::Cut { conn }),
        None => Err(LineRefusal::Number),
    }
}

fn clear(product: &Product, cells: Cells<'_>) -> Result<Event, LineRefusal>
    ensures { result ≡ spec.with_cells (cell.one_of cells.entry) (λ c. option_map event.Clear (cell.security product.now.securities c)) }
{
    let Some(cell) = cells.one() else {
        return Err(LineRefusal::Event);
    };
    match security(cell, product.securities()) {
        Some(security) => Ok(Event::Clear { security }),
        None => Err(LineRefusal::Number),
    }
}

fn tick(last: Moment, cells: Cells<'_>) -> Result<Event, LineRefusal>
    ensures { result ≡ spec.with_cells (cell.one_of cells.entry) (λ c. option_map event.Tick (cell.moment last c)) }
{
    let Some(cell) = cells.one() else {
        return Err(LineRefusal::Event);
    };
    match moment(cell, last) {
        Some(moment) => Ok(Event::Tick { moment }),
        None => Err(LineRefusal::Number),
    }
}

fn up(cells: Cells<'_>) -> Result<Event, LineRefusal>
    ensures { result ≡ spec.with_cells (cell.one_of cells.entry) (λ c. option_map event.Up (cell.byte_count c)) }
{
    let Some(cell) = cells.one() else {
        return Err(LineRefusal::Event);
    };
    match byte_count(cell) {
        Some(count) => Ok(Event::Up { count }),
        None => Err(LineRefusal::Number),
    }
}

fn down(cells: Cells<'_>) -> Result<Event, LineRefusal>
    ensures { result ≡ spec.with_cells (cell.one_of cells.entry) (λ c. option_map event.Down (cell.byte_count c)) }
{
    let Some(cell) = cells.one() else {
        return Err(LineRefusal::Event);
    };
    match byte_count(cell) {
        Some(count) => Ok(Event::Down { count }),
        None => Err(LineRefusal::Number),
    }
}

fn deliver(feed: Feed, cells: Cells<'_>) -> Result<Event, LineRefusal>
    ensures { result ≡ spec.with_cells (cell.one_of cells.entry) (λ c. option_map (event.Deliver feed) (cell.number c)) }
{
    let Some(cell) = cells.one() else {
        return Err(LineRefusal::Event);
    };
    match number(cell) {
        Some(number) => Ok(Event::Deliver { feed, number }),
        None => Err(LineRefusal::Number),
    }
}

fn input(alloc: Global, cells: Cells<'_>) -> Result<Event, LineRefusal>
    ensures { spec.IsRead (spec.with_cells (cell.two_of cells.entry) (λ p. spec.both event.Input (cell.connection p.0) (cell.piece p.1))) result }
{
    let Some((conn, digits)) = cells.two() else {
        return Err(LineRefusal::Event);
    };
    let Some(conn) = connection(conn) else {
        return Err(LineRefusal::Number);
    };
    match piece(alloc, digits) {
        Ok(Some(bytes)) => Ok(Event::Input { conn, bytes }),
        Ok(None) => Err(LineRefusal::Number),
        Err(_) => Err(LineRefusal::Memory),
    }
}

fn forge(alloc: Global, cells: Cells<'_>) -> Result<Event, LineRefusal>
    ensures { spec.IsRead (spec.with_cells (cell.two_of cells.entry) (λ p. spec.both event.Forge (cell.feed p.0) (cell.forged p.1))) result }
{
    let Some((word, digits)) = cells.two() else {
        return Err(LineRefusal::Event);
    };
    let Some(feed) = feed(word) else {
        return Err(LineRefusal::Number);
    };
    match forged(alloc, digits) {
        Ok(Some(bytes)) => Ok(Event::Forge { feed, bytes }),
        Ok(None) => Err(LineRefusal::Number),
        Err(_) => Err(LineRefusal::Memory),
    }
}

fn dial(product: &Product, cells: Cells<'_>) -> Result<Event, LineRefusal>
    ensures { result ≡ spec.with_cells (cell.two_of cells.entry) (λ p. spec.both event.Dial (cell.connection p.0) (cell.session product.now.sessions p.1)) }
{
    let Some((conn, name)) = cells.two() else {
        return Err(LineRefusal::Event);
    };
    match (connection(conn), session(name, product.sessions())) {
        (Some(conn), Some(session)) => Ok(Event::Dial { conn, session }),
        _ => Err(LineRefusal::Number),
    }
}

fn order(product: &Product, cells: Cells<'_>) -> Result<Event, LineRefusal>
    ensures { result ≡ spec.with_cells (cell.order_of cells.entry) (spec.order_event product.now) }
{
    let Some(cells) = cells.order() else {
        return Err(LineRefusal::Event);
    };
    match order_event(product, &cells) {
        Some(event) => Ok(event),
        None => Err(LineRefusal::Number),
    }
}

// The order that five cells are.
fn order_event(product: &Product, cells: &OrderCells<'_>) -> Option<Event>
    ensures { result ≡ spec.order_event product.now (cells_in cells.now) }
{
    Some(Event::Order {
        security: security(cells.security, product.securities())?,
        side: side(cells.side)?,
        price: price(cells.price)?,
        qty: quantity(cells.quantity)?,
        client: client(cells.client)?,
    })
}
