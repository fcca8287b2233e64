ghost use Rattle.transfer_client.specs.Hearing.{PollsHearWords, WaitsInPeace};
ghost use Rattle.transfer_client.specs.Read.{read_rules};
ghost use Rattle.transfer_client.specs.Write.{write_rules};

/// Before its deadline a transfer does nothing by itself.
pub fn waits_in_peace()
    ensures reads { WaitsInPeace read_rules }
    ensures writes { WaitsInPeace write_rules }
{}

/// A poll with one word of the session does just what the word does, where nothing times out at its moment.
pub fn polls_hear_words()
    ensures reads { PollsHearWords read_rules }
    ensures writes { PollsHearWords write_rules }
{}
