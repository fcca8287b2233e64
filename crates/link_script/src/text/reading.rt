ghost use Rattle.std.specs.Prelude.{◌≡◌, IfOk, IfErr, IsOkAnd};
ghost use Rattle.link_script.specs.declared.script.Script as spec_script;
ghost use Rattle.link_script.specs.text.Reading.{IsFirstBadLine, IsScriptText};

use crate::Script;
use crate::text::read_line::read_line;
use crate::text::stand::{add_line, may_stand};
use std::alloc::{AllocError, Global};
use text_fields::first_line;

/// The first line of a text that makes it no script.
#[derive(Clone, Copy, Debug, PartialEq, Eq)]
pub struct BadLine {
    /// The line's number. Lines are counted from 1.
    pub line: usize,
}

/// The script that a text says, or the first line that makes it none. A last line without a newline is a line.
pub fn read_script(alloc: Global, text: &[u8]) -> Result<Result<Script, BadLine>, AllocError>
    ensures script { IfOk result (λ found. IfOk found (λ script. IsScriptText text.now script)) }
    ensures only { IfOk result (λ found. (script : spec_script.Script) → IsScriptText text.now script → IsOkAnd found (λ read. read ≡ script)) }
    ensures bad { IfOk result (λ found. IfErr found (λ bad. IsFirstBadLine text.now bad.line)) }
{
    let mut script = Script::new(alloc);
    let mut number = 1;
    let mut rest = text;
    'lines: while let Some((text, more)) = first_line(rest) {
        let Some(line) = read_line(alloc, text)? else {
            return Ok(Err(BadLine { line: number }));
        };
        if !may_stand(&script, &line) {
            return Ok(Err(BadLine { line: number }));
        }
        add_line(&mut script, line)?;
        number += 1;
        rest = more;
    }
    Ok(Ok(script))
}
