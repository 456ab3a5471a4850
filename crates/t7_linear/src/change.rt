//! What a message that fits does to the orders.

ghost use Rattle.std.specs.Prelude.{◌≡◌, ◌<◌, ◌-◌, None, IfSome};
ghost use Rattle.t7_mbook.specs.Changes.{requantified, named, after};
ghost use Rattle.t7_mbook.specs.Misfits.{misfit_of};

use crate::shown::Shown;
use t7_base::{Public, Qty, Resting, SecurityId, Side, Stamp};

/// Gives the order of this name another quantity.
fn set_quantity(orders: &mut Shown, security: SecurityId, side: Side, stamp: Stamp, qty: Qty)
    ensures { orders.new ≡ requantified (named security side stamp orders.old) (λ _. qty) orders.old }
{
    let Some(kept) = orders.named(security, side, stamp) else {
        return;
    };
    orders.renew(&Resting { qty, ..kept });
}

/// Lowers the order of this name, of which more is left.
fn lower(orders: &mut Shown, security: SecurityId, side: Side, stamp: Stamp, by: Qty)
    requires { IfSome (named security side stamp orders.old) (λ kept. by < kept.qty) }
    ensures { orders.new ≡ requantified (named security side stamp orders.old) (λ kept. kept - by) orders.old }
{
    let Some(kept) = orders.named(security, side, stamp) else {
        return;
    };
    let qty = kept.qty.less(by).unwrap();
    orders.renew(&Resting { qty, ..kept });
}

/// Carries out a message that fits.
pub(crate) fn carry_out(securities: &[SecurityId], orders: &mut Shown, message: &Public)
    requires { misfit_of securities.now orders.old message.now ≡ None }
    ensures { orders.new ≡ after securities.now orders.old message.now }
{
    match *message {
        Public::Add { order } => orders.place(securities, order),
        Public::Modify {
            security,
            side,
            prev_stamp,
            stamp,
            price,
            qty,
            ..
        } => {
            orders.remove(security, side, prev_stamp);
            let order = Resting {
                security,
                side,
                price,
                stamp,
                qty,
            };
            orders.place(securities, order);
        }
        Public::SamePriority {
            security,
            side,
            stamp,
            qty,
            ..
        } => set_quantity(orders, security, side, stamp, qty),
        Public::Delete { order } => orders.remove(order.security, order.side, order.stamp),
        Public::MassDelete { security } => orders.remove_security(security),
        Public::Partial {
            security,
            side,
            stamp,
            last_qty,
            ..
        } => lower(orders, security, side, stamp, last_qty),
        Public::Full {
            security,
            side,
            stamp,
            ..
        } => orders.remove(security, side, stamp),
        Public::Summary { .. } => {}
        Public::Other => {}
    }
}
