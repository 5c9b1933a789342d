ghost use Rattle.std.specs.Prelude.{◌≡◌, ◌++◌, is_ok, if◌then◌else◌};
ghost use Rattle.trace.specs.Text.{text};
ghost use Rattle.trace.specs.Writing.{Wrote};

use crate::fault::RigFault;
use crate::line::Line;
use std::alloc::AllocError;

/// No line is longer than this, and no buffer for a line may be shorter.
pub const LINE_BYTES: usize = 80;

/// Writes the line at the front of the buffer and answers its length; the rest of the buffer stays as it was.
pub fn write_line(line: &Line, buffer: &mut [u8]) -> Result<usize, RigFault>
    ensures { Wrote buffer.old (text line.now) result buffer.new }
{
    if buffer.len() < LINE_BYTES {
        return Err(RigFault::Buffer);
    }
    let text = line.text();
    buffer[..text.len()].copy_from_slice(text.as_bytes());
    Ok(text.len())
}

/// Appends the line, or nothing if there is no memory for it.
pub fn append_line(out: &mut Vec<u8>, line: &Line) -> Result<(), AllocError>
    ensures { out.new.items ≡ (if is_ok result then out.old.items ++ text line.now else out.old.items) }
{
    out.extend_from_slice(line.text().as_bytes())
}
