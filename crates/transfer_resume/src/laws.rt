ghost use Rattle.std.specs.Prelude.{◌≡◌};
ghost use Rattle.transfer_resume.specs.declared.sessions.TheConstants.{MAX_SESSIONS};
ghost use Rattle.transfer_resume.specs.Alone.{MovesAlone};
ghost use Rattle.transfer_resume.specs.Limits.{KeepsLimits};
ghost use Rattle.transfer_resume.specs.Plain.{ReadsBack};
ghost use Rattle.transfer_resume.specs.Standing.{EndedStaysEnded, EndsEndAll, ReadsStoreNothing, RowsRise};
ghost use Rattle.transfer_resume.specs.Uploads.{AllAreUploads};

/// The number of a call's sessions.
pub fn numbers_of_a_call()
    ensures sessions { MAX_SESSIONS ≡ 256 }
{}

/// What is said and done at once is within the limits on answers.
pub fn answers_keep_limits()
    ensures { KeepsLimits }
{}

/// The plain data of the sessions of a call tells all of them.
pub fn plain_data_tells_all()
    ensures { ReadsBack }
{}

/// A chunk moves its own session alone, by the session's machine; so do the time and the end of the call each session.
pub fn each_moves_alone()
    ensures { MovesAlone }
{}

/// Whatever comes to a call of Write, each of its sessions begins at most once, before all else, and what it makes whole
/// joins, from the offset that it began with, of the pieces that came for it.
pub fn uploads_join()
    ensures { AllAreUploads }
{}

/// Whatever comes to a call, its sessions stand by rising id.
pub fn rows_rise()
    ensures { RowsRise }
{}

/// Behind the end of the call each session has ended.
pub fn ends_end_all()
    ensures { EndsEndAll }
{}

/// A session that has ended stays so, with its status, whatever comes: its id is never opened again.
pub fn ended_stays_ended()
    ensures { EndedStaysEnded }
{}

/// Whatever comes to a call of Read, it has no store action: what goes out is said.
pub fn reads_store_nothing()
    ensures { ReadsStoreNothing }
{}
