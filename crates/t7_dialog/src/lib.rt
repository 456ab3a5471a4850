//! What a client of a session and an exchange say to each other on one connection: laws over definitions alone, whose functions compute nothing.
#![tactic(auto)]

ghost use Rattle.t7_dialog.specs.Coming.{ClientsAsk, WhatComesIsGathered};
ghost use Rattle.t7_dialog.specs.Knowing.{AnswersNameWhatIsStored};
ghost use Rattle.t7_dialog.specs.Serving.{ClientsAreServed};

use t7_client::fronts_are_gathered;
use t7_fields::a_message_says_what_is_written;

/// A connection on which a client of a session sends its requests, in whatever pieces, has no other session than the client's; and each recoverable
/// response that goes out on it is the entry of its number of the list that is stored for that session.
pub fn clients_are_served()
    ensures { ClientsAreServed }
{
    a_message_says_what_is_written();
}

/// What a client gathers is a front of the responses that are stored for its session, where what comes down on its connection is what the exchange
/// said there, cut at any byte.
pub fn what_comes_is_gathered()
    ensures { WhatComesIsGathered }
{
    fronts_are_gathered();
}

/// A client that hears bytes queues requests for responses and nothing else, and loses nothing of its list.
pub fn clients_ask_for_responses()
    ensures { ClientsAsk }
{}

/// Each answer to a request for responses says how many responses were stored for the session of its connection when the frame of the request was treated.
pub fn answers_name_what_is_stored()
    ensures { AnswersNameWhatIsStored }
{}
