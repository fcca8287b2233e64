ghost use Rattle.std.specs.Prelude.{◌≡◌, ◌+◌, [], ◌∷◌, ◌++◌, length, OnOk, OnErr, IfSome};
ghost use Rattle.std.specs.Option.{option_copied};
ghost use Rattle.transfer_resume.specs.Book.{IsPlaceFor, IsRowAt, replaced, stage_of, with_new};
ghost use Rattle.transfer_resume.specs.Session.{IsLive};

use crate::row::Row;
use crate::stage::Stage;
use std::alloc::{AllocError, Global};
use std::marker::Model;

/// The sessions of a call, by rising id.
#[derive(Debug, Drop)]
pub struct Rows {
    list: Vec<Row>,
}

impl Model for Rows {
    ghost use Rattle.std.specs.Prelude.{List};
    ghost use Rattle.transfer_resume.specs.Session.{Row};

    ghost Value = { List Row };

    ghost view = { λ r. r.list.items };
}

impl Rows {
    /// No session.
    pub fn new(alloc: Global) -> Rows
        ensures { result ≡ [] }
    {
        Rows {
            list: Vec::new(alloc),
        }
    }

    /// How many there are.
    pub fn len(&self) -> usize
        ensures { result ≡ length self.now }
    {
        self.list.len()
    }

    /// All of them.
    pub fn as_slice(&self) -> &[Row]
        ensures { result.now ≡ self.now }
    {
        self.list.as_slice()
    }

    /// Adds a session at the end.
    pub fn push(&mut self, row: Row) -> Result<(), AllocError>
        ensures ok { OnOk result (self.new ≡ self.old ++ row ∷ []) }
        ensures err { OnErr result (self.new ≡ self.old) }
    {
        self.list.push(row)?;
        Ok(())
    }

    /// Where a session stands, if it is there.
    pub fn stage(&self, id: u32) -> Option<&Stage>
        ensures stage { option_copied result ≡ stage_of id self.now }
        ensures live { IfSome result (λ stage. IsLive stage.now) }
    {
        for row in &self.list {
            if row.id() == id {
                return Some(row.stage());
            }
        }
        None
    }

    /// Where a session that is there stands from now on. One that isn't there is left out.
    pub fn replace(&mut self, id: u32, stage: Stage)
        requires { IsLive stage }
        ensures rows { self.new ≡ replaced id stage self.old }
        ensures count { length self.new ≡ length self.old }
    {
        if let Some(at) = row_of(self.list.as_slice(), id) {
            self.list[at] = Row::new(id, stage);
        }
    }

    /// Adds a session in front of those with larger ids.
    pub fn insert(&mut self, id: u32, stage: Stage) -> Result<(), AllocError>
        requires { IsLive stage }
        ensures rows { OnOk result (self.new ≡ with_new id stage self.old) }
        ensures count { OnOk result (length self.new ≡ length self.old + 1) }
        ensures err { OnErr result (self.new ≡ self.old) }
    {
        let at = place_for(self.list.as_slice(), id);
        self.list.insert(at, Row::new(id, stage))?;
        Ok(())
    }
}

fn row_of(rows: &[Row], id: u32) -> Option<usize>
    ensures { IsRowAt id rows.now result }
{
    for at in 0..rows.len() {
        if rows[at].id() == id {
            return Some(at);
        }
    }
    None
}

fn place_for(rows: &[Row], id: u32) -> usize
    ensures { IsPlaceFor id rows.now result }
{
    for at in 0..rows.len() {
        if id < rows[at].id() {
            return at;
        }
    }
    rows.len()
}
