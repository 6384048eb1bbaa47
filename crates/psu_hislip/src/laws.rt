//! Laws of the definitions: streams, transmissions and responses.
ghost use Rattle.std.specs.Prelude.{ℕ, List, [], ◌++◌, ◌≡◌, ◌<◌, ◌≤◌, All, length, nat_lt, Some, if◌then◌else◌, ◌^◌, ◌∷◌, true, false, map, flat_map};
ghost use Rattle.psu_hislip.specs.Stream.{Received, IsStream};
ghost use Rattle.psu_hislip.specs.Channel.{Awaited, Fed};
ghost use Rattle.psu_hislip.specs.Action.Act.{TooMuch, Execute, Closed};
ghost use Rattle.psu_hislip.specs.Answer.{joined, IsAnswer, IsAnswerCutAnywhere, Part, AreParts, bytes_of, all_frames};
ghost use Rattle.psu_hislip.specs.declared.action.Origin.{Origin};
ghost use Rattle.psu_hislip.specs.PartialTransmission.{added, all_added, executed};
ghost use Rattle.std.specs.List.{list_any};
ghost use Rattle.psu_hislip.specs.Faults.{fatal_code};
ghost use Rattle.psu_hislip.specs.Core.{Core, IsCurrent, reply, is_begun};
ghost use Rattle.psu_hislip.specs.Runs.{Arrival, outcome, started, begins_clear, completes_clear, EndsComplete, executions, clears_in, origins, AreClosed, actions_of, core_after, answers, answers_due, sends_fatal_error};
ghost use Rattle.psu_hislip.specs.Transmitted.{SentTransmission, piece_in, pieces_of, action_for, transmissions, text_kept, action_text, Stretch, IsStretch, run_of};
ghost use Rattle.psu_hislip.specs.Transmitted.Piece.{More};
ghost use Rattle.psu_hislip.specs.SomeSession.{first_stretch, last_words};
ghost use Rattle.psu_hislip.specs.declared.codes.FatalCode.{FatalCode};
ghost use Rattle.psu_hislip.specs.declared.message_type.MessageType.TheVariants.{FatalError};

/// The messages that a channel has returned are those of the stream that it was fed.
pub fn fed_is_the_stream()
    ensures { (channel : Awaited) (stream : List ℕ) (given : List Received) → Fed channel stream given → IsStream stream given }
{}

/// Every stream of bytes can be cut into messages.
pub fn some_division()
    ensures { (stream : List ℕ) → All (λ byte. byte < 256) stream → (messages : List Received) × IsStream stream messages }
{}

/// A stream can be cut into messages in only one way.
pub fn one_division()
    ensures { (stream : List ℕ) (messages others : List Received) → IsStream stream messages → IsStream stream others → messages ≡ others }
{}

/// A stream gives the same messages, in whatever pieces it is fed.
pub fn pieces_do_not_count()
    ensures { (first second : Awaited) (stream : List ℕ) (given others : List Received)
        → Fed first stream given → Fed second stream others → given ≡ others }
{}

/// What is executed is the concatenation of the payloads since the last DataEnd, unless it has more than 65,536 bytes.
pub fn whole_transmission()
    ensures { (origin : Origin) (payloads : List (List ℕ)) (last : List ℕ) → executed origin (added (all_added (Some []) payloads) last)
        ≡ (if nat_lt 65536 (length (joined payloads ++ last)) then TooMuch origin else Execute origin (joined payloads ++ last)) }
{}

/// The frames of the parts of a response, followed by those of its end, are the frames of the whole response: its bytes
/// as Data of at most the client's maximum payload size, none empty, and the last as DataEnd, all with one MessageID.
pub fn parts_are_an_answer()
    ensures { (greatest size id : ℕ) (parts : List Part) (rest end : List ℕ) → AreParts greatest id parts → 0 < size → size ≤ greatest
        → IsAnswer size id rest end → IsAnswerCutAnywhere greatest id (bytes_of parts ++ rest) (all_frames parts ++ end) }
{}

/// A message that causes a FatalError gives Closed after it. Then each message gives Closed alone, and no origin is
/// current.
pub fn closed_after_a_fatal_error()
    ensures gives { (core : Core) (t : Arrival) → sends_fatal_error (outcome core t).actions ≡ true
        → (code : FatalCode) × ((outcome core t).actions ≡ reply t.side FatalError (fatal_code code) ∷ Closed ∷ []) }
    ensures then { (core : Core) (t : Arrival) (later : List Arrival)
        → sends_fatal_error (outcome core t).actions ≡ true → AreClosed (outcome core t).core later }
    ensures silent { (core : Core) (t : Arrival) (later : List Arrival) (o : Origin) → sends_fatal_error (outcome core t).actions ≡ true
        → IsCurrent (core_after (outcome core t).core later) o → ⊥ }
{}

/// Unless a session fails, each message without an error whose type has a response gets exactly one: on its channel, of
/// the type that it asks for, and in the order in which the messages were received. Any other message gets no response
/// but an Error.
pub fn one_answer_for_each_message()
    ensures { (core : Core) (run : List Arrival) → (core_after core run).failed ≡ false → answers (actions_of core run) ≡ flat_map answers_due run }
{}

/// Between an AsyncDeviceClear and the next DeviceClearComplete nothing is executed, unless a DeviceClearComplete was
/// received before the AsyncDeviceClear and no Data, DataEnd or Trigger followed it.
pub fn nothing_executed_in_a_clear()
    ensures { (session : ℕ) (before between : List Arrival) (clear : Arrival) → begins_clear clear ≡ true
        → (EndsComplete before → ⊥) → list_any completes_clear between ≡ false
        → executions (actions_of (core_after (started session) (before ++ clear ∷ [])) between) ≡ [] }
{}

/// Nothing received before an AsyncDeviceClear is current after it, so no frame of a response to it is returned any
/// more. (The device clears are counted modulo 2^64.)
pub fn no_answer_of_before_a_clear()
    ensures { (session : ℕ) (before later : List Arrival) → 0 < clears_in later → length (before ++ later) < 2 ^ 64
        → All (λ o. IsCurrent (core_after (started session) (before ++ later)) o → ⊥) (origins (actions_of (started session) before)) }
{}

/// The executed transmissions are those that the client sent, in order and once each. This holds for a run that starts
/// at the beginning of a transmission and has no device clear, and whose payloads are whole transmissions followed by
/// payloads of an unfinished one. A transmission of more than 65,536 bytes is reported as such.
pub fn each_transmission_once()
    ensures { (core : Core) (run : List Arrival) (whole : List SentTransmission) (rest : List (List ℕ)) → (core_after core run).failed ≡ false
        → core.transmission ≡ Some [] → is_begun core.clear ≡ false → list_any begins_clear run ≡ false
        → flat_map piece_in run ≡ flat_map pieces_of whole ++ map More rest
        → transmissions (actions_of core run) ≡ map (action_for core.clears) whole }
{}

/// The executed transmissions of a whole session are those that the client sent, where the two messages of each device
/// clear arrive in their order: each clear drops the payloads before it that no DataEnd ended, and what arrives until
/// its DeviceClearComplete.
pub fn each_transmission_once_between_clears()
    ensures { (session : ℕ) (stretches : List Stretch) (last : List Arrival) (whole : List SentTransmission) (rest : List (List ℕ)) → All IsStretch stretches
        → list_any begins_clear last ≡ false → flat_map piece_in last ≡ flat_map pieces_of whole ++ map More rest
        → (core_after (started session) (flat_map run_of stretches ++ last)).failed ≡ false
        → map action_text (transmissions (actions_of (started session) (flat_map run_of stretches ++ last)))
        ≡ map text_kept (flat_map (λ (s : Stretch). s.whole) stretches ++ whole) }
{}

/// Such a session exists: the premises of the laws can be met.
pub fn a_session_with_a_clear()
    ensures stretch { IsStretch first_stretch }
    ensures good { (core_after (started 1) (run_of first_stretch ++ last_words)).failed ≡ false }
    ensures texts { map action_text (transmissions (actions_of (started 1) (run_of first_stretch ++ last_words))) ≡ Some (65 ∷ 66 ∷ []) ∷ Some (69 ∷ []) ∷ [] }
{}
