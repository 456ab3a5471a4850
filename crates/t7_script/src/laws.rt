//! What always holds of the events of lines.

ghost use Rattle.std.specs.Prelude.{◌≡◌, ℕ, ℤ, List, Contains, Ok};
ghost use Rattle.t7_script.specs.declared.event.Event.TheVariants as event;
ghost use Rattle.t7_script.specs.Events.{Setting, event_of};

/// The security of a CLEAR is one of the product's.
pub fn a_cleared_security_is_listed()
    ensures { (setting : Setting) (line : List ℕ) (security : ℤ) → event_of setting line ≡ Ok (event.Clear security)
        → Contains setting.listing.securities security }
{}
