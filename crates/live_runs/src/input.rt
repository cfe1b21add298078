//! Reading standard input.
ghost use Rattle.std.specs.Prelude.{◌≡◌, ◌⊎◌, ◌≤◌, ◌+◌, length, IfOk, IfErr, IfSome};
ghost use Rattle.std.specs.Io.KnownBytes.{Consumes};
ghost use Rattle.live_runs.specs.Written.{IsReadOf};

use input_lines::{MOST_INPUT, ProgramFault};
use std::alloc::Global;
use std::io::Read;

/// How many bytes are read at once.
const CHUNK: usize = 16_384;

/// Reads to the end, or until there are more bytes than an input has at most, at most 16,384 at
/// once. The fault is [`ProgramFault::Read`], where the reader gives an error, or
/// [`ProgramFault::Memory`].
pub fn read_input<R: Read>(alloc: Global, input: &mut R) -> Result<Vec<u8>, ProgramFault>
    ensures ok { IfOk result (λ bytes.
        IfSome (R.remaining input.old) (λ all. IsReadOf all bytes.items)) }
    ensures left { IfOk result (λ bytes.
        Consumes (R.remaining input.old) (R.remaining input.new) bytes.items) }
    ensures few { IfOk result (λ bytes. length bytes.items ≤ MOST_INPUT + 16384) }
    ensures err { IfErr result (λ fault.
        (fault ≡ ProgramFault.Read) ⊎ (fault ≡ ProgramFault.Memory)) }
{
    let mut bytes = Vec::new(alloc);
    let mut chunk = [0; CHUNK];
    while bytes.len() <= MOST_INPUT {
        let Ok(count) = input.read(&mut chunk) else {
            return Err(ProgramFault::Read);
        };
        if count == 0 {
            return Ok(bytes);
        }
        bytes.extend_from_slice(&chunk[..count])?;
    }
    Ok(bytes)
}
