//! Laws of the execution of a transmission, and of response messages that are sent in parts.
ghost use Rattle.psu_messages.specs.Answers.{CallsAreOneExecution, OverIsSent};
ghost use Rattle.psu_messages.specs.Messages.{OverIsMessages, SoFarIsMessages};
ghost use Rattle.psu_messages.specs.ResponseBuffer.{PartsAreTheAnswers, PartsAreTheResponse};
ghost use Rattle.psu_messages.specs.Turns.{OverIsDone};

use psu_lex::one_list_of_units;

/// However a response message is sent in parts, what was sent and what is buffered are the responses of its units,
/// joined by `;`.
pub fn parts_are_the_answers()
    ensures { PartsAreTheAnswers }
{}

/// Once the message ends, what was sent and what is buffered are its response message: nothing if no unit has
/// responded, and else the joined responses, ended by NL.
pub fn parts_are_the_response()
    ensures { PartsAreTheResponse }
{}

/// Whichever threads continue a transmission, and however often it was stopped, its effects are those of one legal
/// execution.
pub fn calls_are_one_execution()
    ensures { CallsAreOneExecution }
{}

/// Once a transmission is over, each of its messages with responses had them sent whole, in order, and nothing else
/// was sent.
pub fn over_is_sent()
    ensures { OverIsSent }
{
    parts_are_the_answers();
}

/// Once a transmission is over, each of its units was executed to its end, once and in order, and an expansion in its
/// unit's place.
pub fn over_is_done()
    ensures { OverIsDone }
{
    one_list_of_units();
}

/// Once a transmission is over, its effects are those of its messages, one after another: each text that was sent
/// consists of the responses of one message's units, in their order.
pub fn over_is_messages()
    ensures { OverIsMessages }
{
    one_list_of_units();
    parts_are_the_answers();
}

/// At any point of a transmission, its effects are those of its first messages, each whole, and perhaps of a part of
/// the next: what was sent of its text, followed by the response buffer, is the responses of its units so far.
pub fn so_far_is_messages()
    ensures { SoFarIsMessages }
{
    one_list_of_units();
    parts_are_the_answers();
}
