//! What follows from the rule of the service. Each function does nothing: what counts is its contract, which is proved.
ghost use Rattle.demo_services.specs.Laws.{StatesReadBack, KeepsLimits, CountsFromOne, SumsAllBytes, SaysBack};
ghost use Rattle.demo_services.specs.LogLaws.{TellsTexts};
ghost use Rattle.demo_services.specs.Serves.{ServesSessions};
ghost use Rattle.demo_services.specs.Uploads.{OthersStoreNothing, UploadsJoin};

/// A call's state tells the whole call.
pub fn states_read_back()
    ensures { StatesReadBack }
{}

/// Each answer of a call with at most 256 sessions is within the limits on answers.
pub fn answers_keep_limits()
    ensures { KeepsLimits }
{}

/// Count, asked with one byte n of at most 64, says 1, 2 and so on to n, each in a message of one byte.
pub fn count_says_each_number()
    ensures { CountsFromOne }
{}

/// Sum answers the completion with the sum of all bytes of all messages before, modulo 2^64.
pub fn sum_is_of_all_bytes()
    ensures { SumsAllBytes }
{}

/// Chat says the messages back in their order, where none has more than 8,000 bytes.
pub fn chat_says_back()
    ensures { SaysBack }
{}

/// Text tells a message of the log service by its format and its arguments, and what is no such message by its bytes.
pub fn text_tells_messages()
    ensures { TellsTexts }
{}

/// Over any events a call of Write makes a resource whole only where its session has begun, and where all that was added
/// since joins, from the offset of that beginning, of the data chunks in the messages.
pub fn uploads_join()
    ensures { UploadsJoin }
{}

/// Over any events a call of a method other than Write has no store action: all that it says are messages.
pub fn others_store_nothing()
    ensures { OthersStoreNothing }
{}

/// A message that says a word in a session is answered with what that session says, and moves the call by it alone.
pub fn serves_sessions()
    ensures { ServesSessions }
{}
