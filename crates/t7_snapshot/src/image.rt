//! The image of the market: the book that the noted messages make.

ghost use Rattle.std.specs.Prelude.{◌≡◌, None};
ghost use Rattle.t7_mbook.specs.Changes.{after};
ghost use Rattle.t7_mbook.specs.Misfits.{misfit_of};
ghost use Rattle.t7_snapshot.specs.Noting.{FitInTurn, after_all};

use t7_base::Public;
use t7_mbook::MarketBook;

/// Carries the image forward by a message that fits it.
pub(crate) fn carry(image: &mut MarketBook, message: &Public)
    requires { misfit_of image.old.securities image.old.orders message.now ≡ None }
    ensures { image.new ≡ record image.old { orders = after image.old.securities image.old.orders message.now } }
{
    image.apply(message).unwrap();
}

/// Carries the image forward by messages that fit it in turn.
pub(crate) fn carry_all(image: &mut MarketBook, messages: &[Public])
    requires { FitInTurn image.old.securities image.old.orders messages.now }
    ensures { image.new ≡ record image.old { orders = after_all image.old.securities image.old.orders messages.now } }
{
    for message in messages {
        carry(image, message);
    }
}
