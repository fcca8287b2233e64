ghost use Rattle.std.specs.Prelude.{◌≡◌};
ghost use Rattle.transfer_resume.specs.Session.{IsLive};

use crate::stage::Stage;
use std::marker::Model;

/// One session of a call, by its id.
#[derive(Debug, Drop)]
pub struct Row {
    id: u32,
    stage: Stage,
}

impl Model for Row {
    ghost use Rattle.transfer_resume.specs.Session.{IsLive, Row};

    ghost Value = { Row };

    ghost view = { λ r. record { id = r.id; stage = r.stage } };

    ghost invariant = { λ r. IsLive r.stage };
}

impl Row {
    pub fn new(id: u32, stage: Stage) -> Row
        requires { IsLive stage }
        ensures { result ≡ record { id = id; stage = stage } }
    {
        Row { id, stage }
    }

    pub fn id(&self) -> u32
        ensures { result ≡ self.now.id }
    {
        self.id
    }

    /// Where it stands.
    pub fn stage(&self) -> &Stage
        ensures stage { result.now ≡ self.now.stage }
        ensures live { IsLive result.now }
    {
        &self.stage
    }
}
