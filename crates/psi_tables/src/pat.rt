ghost use Rattle.std.specs.Prelude.{◌≡◌, ◌%◌, Some, None, Ok, Err, IfOk, IsErrOf, MatchResult};
ghost use Rattle.oc_bytes.specs.Outcome.{Gives, MakesList};
ghost use Rattle.psi_tables.specs.Frames.{cause};
ghost use Rattle.long_section.specs.Frames.{fields_of, fields_with};
ghost use Rattle.psi_tables.specs.Pats.{PatFields, ReadsPat, view_pat, read_pat, pat_fault, lines_in, line_of};

use crate::frame::{check_crc, check_header};
use crate::{Pat, PatLine, PsiFault};
use long_section::{Frame, frame_of};
use oc_bytes::Cut;
use std::alloc::{AllocError, Global};

fn line_from(a: u8, b: u8, c: u8, d: u8) -> PatLine
    ensures { result ≡ line_of a b c d }
{
    PatLine {
        program: u16::from_be_bytes([a, b]),
        pid: u16::from_be_bytes([c % 32, d]),
    }
}

fn lines_from(alloc: Global, body: &[u8]) -> Result<Vec<PatLine>, AllocError>
    ensures { MakesList result (lines_in body.now) }
{
    let mut lines = Vec::with_capacity(alloc, body.len() / 4)?;
    let mut rest = body;
    while let [a, b, c, d, following @ ..] = rest {
        lines.push(line_from(*a, *b, *c, *d))?;
        rest = following;
    }
    Ok(lines)
}

fn checked(bytes: &[u8]) -> Result<Frame<'_>, Cut>
    ensures { MatchResult result
        (λ f. (pat_fault bytes.now ≡ None)
        × (fields_with f.header f.body.now ≡ fields_of bytes.now))
        (λ cut. pat_fault bytes.now ≡ Some cut.0) }
{
    check_header(0x00, bytes)?;
    let frame = frame_of(bytes);
    let size = frame.body.len();
    if size % 4 != 0 {
        return Err(Cut(8 + size / 4 * 4));
    }
    check_crc(bytes)?;
    Ok(frame)
}

/// Reads a section of the PAT (ISO/IEC 13818-1, 2.4.4.3), which is all of the bytes.
///
/// `NotPsi` has the place of the first field that is cut or breaks its rule:
///
/// - 0: table_id 0x00;
/// - 1: section_syntax_indicator 1; section_length, the bytes after it, at most 1,021;
/// - 5: current_next_indicator 1;
/// - a line that doesn't fit, at its first byte; a wrong CRC, at its own.
///
/// Other fields may have any value.
pub fn decode_pat(alloc: Global, bytes: &[u8]) -> Result<Pat, PsiFault>
    ensures found { IfOk result (λ p. ReadsPat bytes.now (view_pat p)) }
    ensures only { (p : PatFields) → ReadsPat bytes.now p → Gives view_pat cause result (Ok p) }
    ensures exact { Gives view_pat cause result (read_pat bytes.now) }
    ensures no_memory { IsErrOf result PsiFault.NoMemory → pat_fault bytes.now ≡ None }
{
    let frame = checked(bytes)?;
    let lines = lines_from(alloc, frame.body)?;
    Ok(Pat {
        stream: frame.header.extension,
        version: frame.header.version,
        number: frame.header.number,
        lines,
    })
}
