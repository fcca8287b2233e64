ghost use Rattle.std.specs.Prelude.{◌≡◌, IfOk, IfSome, Some};
ghost use Rattle.link_script.specs.text.Lines.{IsLine};

use crate::text::line::Line;
use crate::text::read_command::read_command;
use crate::text::read_loss::read_loss;
use crate::text::read_setting::read_setting;
use std::alloc::{AllocError, Global};

/// What a line says.
pub(crate) fn read_line(alloc: Global, text: &[u8]) -> Result<Option<Line>, AllocError>
    ensures some { IfOk result (λ found. IfSome found (λ line. IsLine text.now line)) }
    ensures only { IfOk result (λ found. (line : Line) → IsLine text.now line → found ≡ Some line) }
{
    if let Some(setting) = read_setting(text) {
        return Ok(Some(Line::Setting(setting)));
    }
    if let Some(loss) = read_loss(text) {
        return Ok(Some(Line::Loss(loss)));
    }
    match read_command(alloc, text)? {
        Some(command) => Ok(Some(Line::Command(command))),
        None => Ok(None),
    }
}
