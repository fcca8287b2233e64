//! What follows from the definitions. Each function does nothing: what counts is its contract.
ghost use Rattle.transfer_laws.specs.losses.Survives.{FewLossesKeepARoundClean, NumbersLoseFew, ReadsSurvive, RefusalsSurvive, StepsAreTurns, WritesSurvive};
ghost use Rattle.transfer_laws.specs.losses.InTime.{ReadsEndInTime, WritesEndInTime};
ghost use Rattle.transfer_laws.specs.losses.GivesUp.{ReadsEndSo, ReadsGiveUp};
ghost use Rattle.transfer_client.specs.Read.{read_rules};
ghost use Rattle.transfer_client.specs.Write.{write_rules};

/// A read over links that keep the order ends OK within three turns of time, however many words they lose, where one of its first
/// four rounds loses none and its confirmation isn't lost. Each round before the last has lost a word then.
pub fn reads_survive()
    ensures { ReadsSurvive }
{}

/// A read of so many pieces ends within `3 * pieces + 7` turns of time, whatever is lost: with OK, or with DEADLINE_EXCEEDED where
/// each of its first four rounds has lost a word, or where its confirmation was lost.
pub fn reads_end_in_time()
    ensures { ReadsEndInTime }
{}

/// A read gives up at a turn of time exactly where that is the fourth in a row without progress, whatever the service says and whatever
/// is lost: with DEADLINE_EXCEEDED, or with the end that it has told. Progress is the first START_ACK and each piece that is kept.
pub fn reads_give_up()
    ensures { ReadsGiveUp }
{}

/// A read that has told its end ends so, within four turns of time, whatever is lost then: once it has kept all, with OK.
pub fn reads_end_so()
    ensures { ReadsEndSo }
{}

/// A write over such links ends OK so, whichever of its words they lose in the other rounds.
pub fn writes_survive()
    ensures { WritesSurvive }
{}

/// A write of so many pieces ends with OK within `3 * pieces + 9` turns of time, or with DEADLINE_EXCEEDED within two more, where each
/// of its first four rounds has lost a word.
pub fn writes_end_in_time()
    ensures { WritesEndInTime }
{}

/// A read that the service can't serve is refused over such links with the service's reason.
pub fn refusals_survive()
    ensures { RefusalsSurvive }
{}

/// Where at most three words are lost, one of the first four rounds loses none.
pub fn few_losses_keep_a_round_clean()
    ensures reads { FewLossesKeepARoundClean read_rules }
    ensures writes { FewLossesKeepARoundClean write_rules }
{}

/// Links that lose the words of listed numbers lose no more words than there are numbers.
pub fn numbers_lose_few()
    ensures reads { NumbersLoseFew read_rules }
    ensures writes { NumbersLoseFew write_rules }
{}

/// Where nothing is lost, and a word is on its way, a step is that of the two ends over links that lose nothing.
pub fn steps_are_turns()
    ensures reads { StepsAreTurns read_rules }
    ensures writes { StepsAreTurns write_rules }
{}
