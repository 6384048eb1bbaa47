//! The laws of exchanges: the streams of a session, its events and what is sent; and of the histories of a session, each
//! of which is an exchange.
ghost use Rattle.std.specs.Prelude.{[], ◌∷◌};
ghost use Rattle.psu_messages.specs.Executions.{IsOver};
ghost use Rattle.psu_session_laws.specs.Answered.{EachIsAnswered, MessagesAreTheStreams, NothingElseIsSent, NothingOfBeforeAClear, TransmissionsAreTheClients};
ghost use Rattle.psu_session_laws.specs.Cleared.{EachClearIsAcknowledgedLast};
ghost use Rattle.psu_session_laws.specs.Exchange.{IsExchange};
ghost use Rattle.psu_session_laws.specs.History.{EachSessionIsAnExchange, HistoriesAreExchanges, HistoriesExtend};
ghost use Rattle.psu_session_laws.specs.Holding.{EachReleaseIsCounted, EachTransmissionIsCounted};
ghost use Rattle.psu_session_laws.specs.Releases.{EachReleaseIsDone, EachReleaseIsInPlace};
ghost use Rattle.psu_session_laws.specs.Requests.{EachRequestIsServed};
ghost use Rattle.psu_session_laws.specs.Served.{EachSessionAnswersInOrder};
ghost use Rattle.psu_session_laws.specs.SomeExchange.{async_stream, some_history, some_turn, sync_stream};
ghost use Rattle.psu_session_laws.specs.Waiting.{EachWaitIsAnsweredOnce, OneRequestWaits, TheWaitIsKnown};
ghost use Rattle.psu_session_laws.specs.Writing.{EachTakeIsWritten, TheWriterIsKnown};

use psu_hislip::{
    each_transmission_once_between_clears, no_answer_of_before_a_clear, one_division,
    parts_are_an_answer,
};
use psu_messages::{over_is_messages, so_far_is_messages};

/// In an exchange the messages are those of the two streams, in one way; the transmissions that are executed are the
/// client's, in order and once each; the response to each message of each of them is sent whole under its MessageID
/// (IVI-6.1), unless a device clear or the end comes before; after a device clear nothing is done for what was received
/// before it; and nothing else is sent on the synchronous connection but the core's replies.
pub fn from_bytes_to_bytes()
    ensures messages { MessagesAreTheStreams }
    ensures transmissions { TransmissionsAreTheClients }
    ensures answers { EachIsAnswered }
    ensures cleared { NothingOfBeforeAClear }
    ensures nothing_else { NothingElseIsSent }
{
    one_division();
    each_transmission_once_between_clears();
    over_is_messages();
    so_far_is_messages();
    parts_are_an_answer();
    no_answer_of_before_a_clear();
}

/// There is an exchange with a response, so the premises of these laws can be met.
pub fn a_session_that_is_answered()
    ensures is { IsExchange 1 sync_stream async_stream some_history (some_turn ∷ []) }
    ensures over { IsOver some_turn.order.source some_turn.progress }
{}

/// Each history of a session is an exchange, which determines the session's state.
pub fn histories_are_exchanges()
    ensures { HistoriesAreExchanges }
{}

/// To the state of a session that is not over a history leads, as `HislipSession::phase` ensures; and this history is an
/// exchange of the session's two streams of bytes.
pub fn each_session_is_an_exchange()
    ensures { EachSessionIsAnExchange }
{
    histories_are_exchanges();
}

/// The events of a call extend each history that leads to the state before it.
pub fn histories_extend()
    ensures { HistoriesExtend }
{}

/// A session from the bytes that are received to those that are sent: its messages are those of the bytes, in one way;
/// each transmission that is over is answered whole under its MessageID, message by message; and nothing else is sent
/// on the synchronous connection but the core's replies.
pub fn each_session_answers_in_order()
    ensures { EachSessionAnswersInOrder }
{
    histories_are_exchanges();
    from_bytes_to_bytes();
}

/// What is done immediately for messages is what they request, each request once and in order (IVI-6.1): a status
/// query, a lock request and a lock info query are answered by the reply of the device to that very call.
pub fn each_request_is_served()
    ensures { EachRequestIsServed }
{}

/// Each release of a lock that messages request is done once, is in the queue, or waits for the message that it names.
/// It is done after the transmissions that were received before its request have ended.
pub fn each_release_is_done()
    ensures done { EachReleaseIsDone }
    ensures in_place { EachReleaseIsInPlace }
{}

/// A lock request that waits is answered at most once: its result is passed on only while it waits, and then it waits no
/// longer. At most one request waits at a time, since no other one is made of the device meanwhile.
pub fn each_wait_is_answered()
    ensures known { TheWaitIsKnown }
    ensures once { EachWaitIsAnsweredOnce }
    ensures one { OneRequestWaits }
{}

/// On each connection the bytes that were taken are written before others are taken.
pub fn each_take_is_written()
    ensures known { TheWriterIsKnown }
    ensures written { EachTakeIsWritten }
{}

/// What a session holds is counted: each transmission until it is over or dropped, and each release until it is done.
pub fn each_item_is_counted()
    ensures transmissions { EachTransmissionIsCounted }
    ensures releases { EachReleaseIsCounted }
{}

/// A device clear is acknowledged after every response to what was received before it: what is sent on the synchronous
/// connection once the clear has begun, as DeviceClearAcknowledge, is followed by no such response.
pub fn each_clear_is_acknowledged_last()
    ensures { EachClearIsAcknowledgedLast }
{
    histories_are_exchanges();
    each_session_answers_in_order();
}
