ghost use Rattle.std.specs.Prelude.{◌≡◌, ◌%◌, ◌≤◌, map, Some, None, Ok, Err, length, IfOk, IsErrOf, MatchResult};
ghost use Rattle.std.specs.Option.{option_map};
ghost use Rattle.oc_bytes.specs.Outcome.{Gives, MakesList};
ghost use Rattle.psi_tables.specs.Frames.{cause};
ghost use Rattle.long_section.specs.Frames.{fields_of, fields_with};
ghost use Rattle.psi_tables.specs.Pmts as pmts;
ghost use Rattle.psi_tables.specs.Inner.Pmts as inner;
ghost use Rattle.psi_tables.specs.Pmts.{PmtFields, ReadsPmt, view_pmt, view_line, read_pmt, pmt_fault, body_fault, stream_bytes, streams_run, lines_of, carousels_in, carousel_of};

use crate::frame::{check_crc, check_header};
use crate::{Pmt, PmtLine, PsiFault};
use carousel_profile::STREAM_TYPE;
use long_section::{Frame, frame_of};
use oc_bytes::{Cut, Descriptor, Descriptors, length_field};
use std::alloc::{AllocError, Global};

/// The type of streams with user-to-network messages, carousels among them (ISO/IEC 13818-6, clause
/// 9.2.3).
const DSM_CC: u8 = STREAM_TYPE;

/// A carousel identifier descriptor (ISO/IEC 13818-6, clause 11.5.1).
const CAROUSEL_IDENTIFIER: u8 = 0x13;

#[derive(Clone, Copy, Debug)]
struct Stream<'a> {
    kind: u8,
    pid: u16,
    info: &'a [u8],
}

/// The whole stream at the front, and the bytes after it.
fn next_stream(bytes: &[u8]) -> Option<(Stream<'_>, &[u8])>
    ensures { option_map (λ x. (inner.view_stream x.0, x.1.now)) result
        ≡ pmts.next_stream bytes.now }
{
    let [kind, a, b, c, d, following @ ..] = bytes else {
        return None;
    };
    let size = length_field(*c, *d);
    if size > following.len() {
        return None;
    }
    let stream = Stream {
        kind: *kind,
        pid: u16::from_be_bytes([*a % 32, *b]),
        info: &following[..size],
    };
    Some((stream, &following[size..]))
}

fn carousel_named(descriptor: Descriptor<'_>) -> Option<u32>
    ensures { result ≡ carousel_of (descriptor.entry.tag, descriptor.entry.bytes.now) }
{
    match descriptor.bytes {
        [a, b, c, d, ..] if descriptor.tag == CAROUSEL_IDENTIFIER => {
            Some(u32::from_be_bytes([*a, *b, *c, *d]))
        }
        _ => None,
    }
}

fn carousels_named(alloc: Global, info: &[u8]) -> Result<Vec<u32>, AllocError>
    ensures { MakesList result (carousels_in info.now) }
{
    let mut carousels = Vec::new(alloc);
    let mut descriptors = Descriptors::new(info);
    while let Some(descriptor) = descriptors.next() {
        if let Some(carousel) = carousel_named(descriptor) {
            carousels.push(carousel)?;
        }
    }
    Ok(carousels)
}

/// The bytes after the last whole stream.
fn left_after_streams(bytes: &[u8]) -> &[u8]
    ensures left { result.now ≡ (streams_run bytes.now).1 }
    ensures within { length result.now ≤ length bytes.now }
{
    let mut rest = bytes;
    while let Some((_, following)) = next_stream(rest) {
        rest = following;
    }
    rest
}

fn lines_from(alloc: Global, bytes: &[u8]) -> Result<Vec<PmtLine>, AllocError>
    ensures { IfOk result (λ v. map view_line v.items ≡ lines_of (streams_run bytes.now).0) }
{
    let mut lines = Vec::new(alloc);
    let mut rest = bytes;
    while let Some((stream, following)) = next_stream(rest) {
        if stream.kind == DSM_CC {
            let carousels = carousels_named(alloc, stream.info)?;
            lines.push(PmtLine {
                pid: stream.pid,
                carousels,
            })?;
        }
        rest = following;
    }
    Ok(lines)
}

fn streams_of(body: &[u8]) -> Result<&[u8], Cut>
    ensures { MatchResult result
        (λ x. (body_fault body.now ≡ None) × (x.now ≡ stream_bytes body.now))
        (λ cut. body_fault body.now ≡ Some cut.0) }
{
    if body.len() < 2 {
        return Err(Cut(8));
    }
    if body.len() < 4 {
        return Err(Cut(10));
    }
    let info = length_field(body[2], body[3]);
    if body.len() < 4 + info {
        return Err(Cut(12));
    }
    let streams = &body[4 + info..];
    let left = left_after_streams(streams).len();
    if left == 0 {
        return Ok(streams);
    }
    let place = 8 + body.len() - left;
    Err(Cut(if left < 5 { place } else { place + 5 }))
}

fn checked(bytes: &[u8]) -> Result<(Frame<'_>, &[u8]), Cut>
    ensures { MatchResult result
        (λ x.
        (pmt_fault bytes.now ≡ None)
        × (fields_with x.0.header x.0.body.now ≡ fields_of bytes.now)
        × (x.1.now ≡ stream_bytes (fields_of bytes.now).body))
        (λ cut. pmt_fault bytes.now ≡ Some cut.0) }
{
    check_header(0x02, bytes)?;
    let frame = frame_of(bytes);
    let streams = streams_of(frame.body)?;
    check_crc(bytes)?;
    Ok((frame, streams))
}

/// Reads a program's map table (ISO/IEC 13818-1, 2.4.4.8), which is all of the bytes.
///
/// `NotPsi` has the place of the first field that is cut or breaks its rule:
///
/// - 0: table_id 0x02;
/// - 1: section_syntax_indicator 1; section_length, the bytes after it, at most 1,021;
/// - 5: current_next_indicator 1;
/// - the program's descriptors, a stream's five bytes or its descriptors that don't fit, at their
///   first byte; a wrong CRC, at its own.
///
/// Other fields may have any value. In a stream of type 0x0B each whole descriptor of tag 0x13
/// begins with a carousel's id; one of under 4 bytes, or that runs past the end, is ignored.
pub fn decode_pmt(alloc: Global, bytes: &[u8]) -> Result<Pmt, PsiFault>
    ensures found { IfOk result (λ p. ReadsPmt bytes.now (view_pmt p)) }
    ensures only { (p : PmtFields) → ReadsPmt bytes.now p → Gives view_pmt cause result (Ok p) }
    ensures exact { Gives view_pmt cause result (read_pmt bytes.now) }
    ensures no_memory { IsErrOf result PsiFault.NoMemory → pmt_fault bytes.now ≡ None }
{
    let (frame, streams) = checked(bytes)?;
    let lines = lines_from(alloc, streams)?;
    Ok(Pmt {
        program: frame.header.extension,
        lines,
    })
}
