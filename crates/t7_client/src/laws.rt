//! What always holds of a client, as the contract of a function that does nothing.

ghost use Rattle.t7_client.specs.Fronts.{FrontsAreGathered};

/// What a client gathered is a front of the responses that are stored for its session, each once and in order, as long as
/// the recoverable responses that come down are those, whichever of them come, how often, in which order and in which
/// pieces. Where the client is recovered, its list has all that were kept by the last answer that it read.
pub fn fronts_are_gathered()
    ensures { FrontsAreGathered }
{}
