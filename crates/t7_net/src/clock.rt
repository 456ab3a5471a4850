//! The time of day.
ghost use Rattle.std.specs.Prelude.{◌≡◌, [], ◌∷◌, List, Option, ℕ};
ghost use Rattle.t7_base.specs.Outside.{Grew};

use t7_base::Moment;

/// Where moments come from.
pub trait Clock {
    /// The moments that were given, in nanoseconds.
    ghost given: { Self → Option (List ℕ) };

    /// The moment that it is. It can't fail.
    fn now(&mut self) -> Moment
        ensures given { Grew (given self.old) (given self.new) (λ added. added ≡ result ∷ []) };
}
