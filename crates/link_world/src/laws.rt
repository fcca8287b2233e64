//! What follows from the definitions. Each function does nothing: what counts is its contract.
ghost use Rattle.std.specs.Prelude.{ℕ, ◌+◌, ◌^◌, ◌<◌, List, length};
ghost use Rattle.link_script.specs.declared.script.Script.{Script};
ghost use Rattle.link_script.specs.text.Reading.{IsScriptText};
ghost use Rattle.link_laws.specs.transfers_fit.Scripts.{IsScript};
ghost use Rattle.link_laws.specs.world.Rows.{IsRow};
ghost use Rattle.link_world.specs.RepeatRows.{read_twice, written_read_and_written};
ghost use Rattle.link_world.specs.Starting.{IsWithinBounds};

/// The script that a text says may be run.
pub fn scripts_keep_the_bounds()
    ensures { (text : List ℕ) (script : Script) → IsScriptText text script → IsWithinBounds script }
{}

/// The numbers of the script that a text says fit, where the text isn't so long that its commands can't be numbered.
pub fn numbers_of_a_text_fit()
    ensures { (text : List ℕ) (script : Script) → IsScriptText text script → length text + 1 < 2 ^ 32 → IsScript script }
{}

/// Transfers of one resource that a script has more than once: each has its line, its chunks and the bytes of its own time.
pub fn rows_of_repeats()
    ensures twice { IsRow read_twice }
    ensures between { IsRow written_read_and_written }
{}
