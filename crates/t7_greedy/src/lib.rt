//! Greedy cuts: messages of any kind cut into datagrams, each the longest run of the next messages that fits.
#![tactic(auto)]

ghost use Rattle.std.specs.Prelude.{◌≡◌, ℕ, List, ◌∷◌};
ghost use Rattle.t7_greedy.specs.Cuts.{cut, EachFits, IsGreedy, IsLongestRun, joined};

/// Messages of which each fits alone have exactly one greedy cut. It begins with the longest run that fits and goes on with the
/// cut of what that leaves, no datagram is empty, and together they have the messages, each once and in order.
pub fn greedy_cuts_are_one<M>()
    ensures exists { (size : M → ℕ) (room : ℕ) (messages : List M) → EachFits size room messages → IsGreedy size room messages (cut size room messages) }
    ensures only { (size : M → ℕ) (room : ℕ) (messages : List M) (runs : List (List M)) → IsGreedy size room messages runs → runs ≡ cut size room messages }
    ensures next { (size : M → ℕ) (room : ℕ) (messages run left : List M) → IsLongestRun size room messages run left → cut size room messages ≡ run ∷ cut size room left }
    ensures all { (size : M → ℕ) (room : ℕ) (messages : List M) → joined (cut size room messages) ≡ messages }
    ensures whole { (size : M → ℕ) (room : ℕ) (messages : List M) (runs : List (List M)) → IsGreedy size room messages runs → joined runs ≡ messages }
{}
