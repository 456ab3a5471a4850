//! The lines of reports.

ghost use Rattle.std.specs.Prelude.{◌≡◌, ◌+◌, ◌≤◌, ◌++◌, codes, decimal, drop, length};
ghost use Rattle.std.specs.Fmt.{signed_decimal};
ghost use Rattle.t7_script.specs.Lines as spec;

use t7_base::{Price, Qty, Resting, Side};
use t7_eti::Kept;
use t7_mbook::Misfit;
use t7_outcome::Line;

/// Writes the line of an order, `security side price quantity stamp`, without its line feed at the front of `out`, and answers its
/// length.
pub fn order_line(order: &Resting, out: &mut [u8]) -> usize
    requires { 256 ≤ length out.old }
    ensures length { result ≡ length (spec.order_line order.now) }
    ensures bytes { out.new ≡ spec.order_line order.now ++ drop result out.old }
    ensures short { result ≤ 100 }
{
    put(&order_text(order), out)
}

/// Writes the line of a recoverable response, its number first, without its line feed at the front of `out`, and answers its length.
pub fn kept_line(number: u64, what: &Kept, out: &mut [u8]) -> usize
    requires { 256 ≤ length out.old }
    ensures length { result ≡ length (spec.kept_line number what.now) }
    ensures bytes { out.new ≡ spec.kept_line number what.now ++ drop result out.old }
{
    put(&kept_text(number, what), out)
}

/// Writes the words of a misfit, with the kept and the said value where they differ, at the front of `out`, and answers their length.
pub fn misfit_words(why: &Misfit, out: &mut [u8]) -> usize
    requires { 256 ≤ length out.old }
    ensures length { result ≡ length (spec.misfit_words why.now) }
    ensures bytes { out.new ≡ spec.misfit_words why.now ++ drop result out.old }
    ensures short { result ≤ 100 }
{
    put(&misfit_text(why), out)
}

// Puts a line at the front.
fn put(line: &Line, out: &mut [u8]) -> usize
    requires { 256 ≤ length out.old }
    ensures length { result ≡ length line.now }
    ensures bytes { out.new ≡ line.now ++ drop result out.old }
{
    let bytes = line.bytes();
    out[..bytes.len()].copy_from_slice(bytes);
    bytes.len()
}

fn order_text(order: &Resting) -> Line
    ensures value { result ≡ spec.order_line order.now }
    ensures short { length result ≤ 100 }
{
    let mut line = Line::new();
    line.push_signed(order.security.0);
    line.push(b" ");
    line.push(side_letter(order.side));
    line.push(b" ");
    line.push_signed(order.price.get());
    line.push(b" ");
    line.push_number(order.qty.units());
    line.push(b" ");
    line.push_number(order.stamp.get());
    line
}

// The letter of a side.
fn side_letter(side: Side) -> &'static [u8]
    ensures value { result.now ≡ spec.side_text side }
    ensures short { length result.now ≤ 1 }
{
    match side {
        Side::Buy => b"B",
        Side::Sell => b"S",
    }
}

#[tactic(auto, unfolding(crate::specs::Lines::kept_line))]
fn kept_text(number: u64, what: &Kept) -> Line
    ensures { result ≡ spec.kept_line number what.now }
{
    let mut line = Line::new();
    line.push_number(number);
    match *what {
        Kept::New {
            order,
            client,
            stamp,
        } => push_three(&mut line, b" NEW ", order.0, client, stamp.get()),
        Kept::Changed {
            order,
            client,
            stamp,
        } => push_three(&mut line, b" CHANGED ", order.0, client, stamp.get()),
        Kept::Deleted { order, client } => push_two(&mut line, b" DELETED ", order.0, client),
        Kept::DeletedAll { security, count } => {
            push_count(&mut line, b" DELETEDALL ", security.0, count);
        }
        Kept::Cleared { security, count } => {
            push_count(&mut line, b" CLEARED ", security.0, count);
        }
        Kept::Exec {
            order,
            side,
            leaves,
            cum,
            last_qty,
            last_price,
        } => {
            push_order(&mut line, order.0, side);
            push_so_far(&mut line, leaves, cum);
            push_trade(&mut line, last_qty, last_price);
        }
    }
    line
}

// Puts a word and two numbers behind what stands in a line.
fn push_two(line: &mut Line, word: &[u8], first: u64, second: u64)
    requires { length line.old + length word.now ≤ 100 }
    ensures value { line.new ≡ line.old ++ word.now ++ decimal first ++ codes " " ++ decimal second }
    ensures short { length line.new ≤ length line.old + length word.now + 41 }
{
    line.push(word);
    line.push_number(first);
    line.push(b" ");
    line.push_number(second);
}

// Puts a word and three numbers behind what stands in a line.
fn push_three(line: &mut Line, word: &[u8], first: u64, second: u64, third: u64)
    requires { length line.old + length word.now ≤ 100 }
    ensures { line.new ≡ line.old ++ word.now ++ decimal first ++ codes " " ++ decimal second ++ codes " " ++ decimal third }
{
    push_two(line, word, first, second);
    line.push(b" ");
    line.push_number(third);
}

// Puts a word, a security and how many orders there were behind what stands in a line.
fn push_count(line: &mut Line, word: &[u8], security: i64, count: u16)
    requires { length line.old + length word.now ≤ 100 }
    ensures { line.new ≡ line.old ++ word.now ++ signed_decimal security ++ codes " " ++ decimal count }
{
    line.push(word);
    line.push_signed(security);
    line.push(b" ");
    line.push_number(count as u64);
}

// Puts the order of an execution and its side behind what stands in a line.
#[tactic(auto, unfolding(crate::specs::Lines::executed_order))]
fn push_order(line: &mut Line, order: u64, side: Side)
    requires { length line.old ≤ 20 }
    ensures value { line.new ≡ line.old ++ spec.executed_order order side }
    ensures short { length line.new ≤ 48 }
{
    line.push(b" EXEC ");
    line.push_number(order);
    line.push(b" ");
    line.push(side_letter(side));
}

// Puts what is left of an order and what was executed of it in all behind what stands in a line.
#[tactic(auto, unfolding(crate::specs::Lines::executed_so_far))]
fn push_so_far(line: &mut Line, leaves: i64, cum: i64)
    requires { length line.old ≤ 48 }
    ensures value { line.new ≡ line.old ++ spec.executed_so_far leaves cum }
    ensures short { length line.new ≤ 90 }
{
    line.push(b" ");
    line.push_signed(leaves);
    line.push(b" ");
    line.push_signed(cum);
}

// Puts the quantity and the price of a trade behind what stands in a line.
#[tactic(auto, unfolding(crate::specs::Lines::executed_now))]
fn push_trade(line: &mut Line, qty: Qty, price: Price)
    requires { length line.old ≤ 90 }
    ensures { line.new ≡ line.old ++ spec.executed_now qty price }
{
    line.push(b" ");
    line.push_number(qty.units());
    line.push(b" ");
    line.push_signed(price.get());
}

fn misfit_text(why: &Misfit) -> Line
    ensures value { result ≡ spec.misfit_words why.now }
    ensures short { length result ≤ 100 }
{
    let mut line = Line::new();
    match why {
        Misfit::Security => line.push(b"security"),
        Misfit::Absent => line.push(b"absent"),
        Misfit::Price { kept, said } => {
            line.push(b"price ");
            line.push_signed(kept.get());
            line.push(b" ");
            line.push_signed(said.get());
        }
        Misfit::Quantity { kept, said } => push_two(
            &mut line,
            b"quantity ",
            kept.units(),
            said.units(),
        ),
        Misfit::Present => line.push(b"present"),
        Misfit::Full => line.push(b"full"),
    }
    line
}
