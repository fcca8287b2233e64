//! Lists that only grow at their end, seen as the list of their elements.
ghost use Rattle.std.specs.Prelude.{◌≡◌, [], ◌∷◌, ◌++◌, OnOk, OnErr};

use crate::command::Command;
use crate::loss::Loss;
use crate::report::ReportLine;
use crate::stock::Stock;
use std::alloc::{AllocError, Global};
use std::marker::Model;

/// Resources that a store has, in the order of the script.
#[derive(Debug, Drop)]
pub struct Stocks {
    stocks: Vec<Stock>,
}

impl Model for Stocks {
    ghost use Rattle.std.specs.Prelude.{List};
    ghost use Rattle.link_script.specs.declared.stock.Stock.{Stock};

    ghost Value = { List Stock };

    ghost view = { λ l. l.stocks.items };
}

impl Stocks {
    /// No resource.
    pub fn new(alloc: Global) -> Stocks
        ensures { result ≡ [] }
    {
        Stocks {
            stocks: Vec::new(alloc),
        }
    }

    /// Adds one at the end.
    pub fn push(&mut self, item: Stock) -> Result<(), AllocError>
        ensures ok { OnOk result (self.new ≡ self.old ++ item ∷ []) }
        ensures err { OnErr result (self.new ≡ self.old) }
    {
        self.stocks.push(item)?;
        Ok(())
    }

    /// All in order.
    pub fn as_slice(&self) -> &[Stock]
        ensures { result.now ≡ self.now }
    {
        self.stocks.as_slice()
    }
}

/// What the link does to frames, by their numbers.
#[derive(Debug, Drop)]
pub struct Losses {
    losses: Vec<(u32, Loss)>,
}

impl Model for Losses {
    ghost use Rattle.std.specs.Prelude.{List};
    ghost use Rattle.std.specs.Prelude.{ℕ};
    ghost use Rattle.link_script.specs.declared.loss.Loss.{Loss};

    ghost Value = { List (ℕ × Loss) };

    ghost view = { λ l. l.losses.items };
}

impl Losses {
    /// The link loses nothing.
    pub fn new(alloc: Global) -> Losses
        ensures { result ≡ [] }
    {
        Losses {
            losses: Vec::new(alloc),
        }
    }

    /// Adds one at the end.
    pub fn push(&mut self, item: (u32, Loss)) -> Result<(), AllocError>
        ensures ok { OnOk result (self.new ≡ self.old ++ item ∷ []) }
        ensures err { OnErr result (self.new ≡ self.old) }
    {
        self.losses.push(item)?;
        Ok(())
    }

    /// All in order.
    pub fn as_slice(&self) -> &[(u32, Loss)]
        ensures { result.now ≡ self.now }
    {
        self.losses.as_slice()
    }
}

/// What happens in a world, in order.
#[derive(Debug, Drop)]
pub struct Commands {
    commands: Vec<Command>,
}

impl Model for Commands {
    ghost use Rattle.std.specs.Prelude.{List};
    ghost use Rattle.link_script.specs.declared.command.Command.{Command};

    ghost Value = { List Command };

    ghost view = { λ l. l.commands.items };
}

impl Commands {
    /// Nothing happens.
    pub fn new(alloc: Global) -> Commands
        ensures { result ≡ [] }
    {
        Commands {
            commands: Vec::new(alloc),
        }
    }

    /// Adds one at the end.
    pub fn push(&mut self, item: Command) -> Result<(), AllocError>
        ensures ok { OnOk result (self.new ≡ self.old ++ item ∷ []) }
        ensures err { OnErr result (self.new ≡ self.old) }
    {
        self.commands.push(item)?;
        Ok(())
    }

    /// All in order.
    pub fn as_slice(&self) -> &[Command]
        ensures { result.now ≡ self.now }
    {
        self.commands.as_slice()
    }
}

/// How commands ended, in order.
#[derive(Debug, Drop)]
pub struct ReportLines {
    lines: Vec<ReportLine>,
}

impl Model for ReportLines {
    ghost use Rattle.std.specs.Prelude.{List};
    ghost use Rattle.link_script.specs.declared.report.ReportLine.{ReportLine};

    ghost Value = { List ReportLine };

    ghost view = { λ l. l.lines.items };
}

impl ReportLines {
    /// No command.
    pub fn new(alloc: Global) -> ReportLines
        ensures { result ≡ [] }
    {
        ReportLines {
            lines: Vec::new(alloc),
        }
    }

    /// Adds one at the end.
    pub fn push(&mut self, item: ReportLine) -> Result<(), AllocError>
        ensures ok { OnOk result (self.new ≡ self.old ++ item ∷ []) }
        ensures err { OnErr result (self.new ≡ self.old) }
    {
        self.lines.push(item)?;
        Ok(())
    }

    /// All in order.
    pub fn as_slice(&self) -> &[ReportLine]
        ensures { result.now ≡ self.now }
    {
        self.lines.as_slice()
    }
}

/// Resources of a store by their ids, with their lengths in bytes.
#[derive(Debug, Drop)]
pub struct Resources {
    resources: Vec<(u32, u64)>,
}

impl Model for Resources {
    ghost use Rattle.std.specs.Prelude.{List};
    ghost use Rattle.std.specs.Prelude.{ℕ};

    ghost Value = { List (ℕ × ℕ) };

    ghost view = { λ l. l.resources.items };
}

impl Resources {
    /// No resource.
    pub fn new(alloc: Global) -> Resources
        ensures { result ≡ [] }
    {
        Resources {
            resources: Vec::new(alloc),
        }
    }

    /// Adds one at the end.
    pub fn push(&mut self, item: (u32, u64)) -> Result<(), AllocError>
        ensures ok { OnOk result (self.new ≡ self.old ++ item ∷ []) }
        ensures err { OnErr result (self.new ≡ self.old) }
    {
        self.resources.push(item)?;
        Ok(())
    }

    /// All in order.
    pub fn as_slice(&self) -> &[(u32, u64)]
        ensures { result.now ≡ self.now }
    {
        self.resources.as_slice()
    }
}
