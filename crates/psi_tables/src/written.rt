ghost use Rattle.std.specs.Prelude.{◌≡◌, Ok, IfOk, ◌≤◌, length};
ghost use Rattle.oc_bytes.specs.Outcome.{MakesList};
ghost use Rattle.long_section.specs.Frames.{spelling};
ghost use Rattle.section_stream.specs.Packing.{IsSectionLike};
ghost use Rattle.psi_tables.specs.Pats.{ReadsPat, read_pat};
ghost use Rattle.psi_tables.specs.Pmts.{ReadsPmt, read_pmt};
ghost use Rattle.psi_tables.specs.Written.{pat_spelling, pat_value, pmt_spelling, pmt_value};

use carousel_profile::{COMPONENT_TAG, STREAM_TYPE};
use long_section::{Header, write_frame};
use oc_bytes::NoMemory;
use std::alloc::Global;

const KIND: u8 = STREAM_TYPE;

const TAG: u8 = COMPONENT_TAG;

/// One section of version 0. The extension 1 is
/// [`TRANSPORT_STREAM`](carousel_profile::TRANSPORT_STREAM) and
/// [`PROGRAM`](carousel_profile::PROGRAM).
fn written_table(alloc: Global, id: u8, body: &[u8]) -> Result<Vec<u8>, NoMemory>
    requires { length body.now ≤ 1012 }
    ensures { MakesList result (spelling id
        (record { extension = 1; version = 0; number = 0; last = 0; body = body.now })) }
{
    let header = Header {
        extension: 1,
        version: 0,
        number: 0,
        last: 0,
    };
    write_frame(alloc, id, &header, &[], body)
}

/// The PAT that is sent with a carousel (ISO/IEC 13818-1, 2.4.4.3). Its 16 bytes list program 1
/// with its map table on PID 32. `Err` is out of memory.
pub fn written_pat(alloc: Global) -> Result<Vec<u8>, NoMemory>
    ensures spells { MakesList result pat_spelling }
    ensures reads { IfOk result (λ v. ReadsPat v.items pat_value) }
    ensures is_read { IfOk result (λ v. read_pat v.items ≡ Ok pat_value) }
    ensures framed { IfOk result (λ v. IsSectionLike v.items) }
{
    written_table(alloc, 0x00, &[0x00, 0x01, 0xE0, 0x20])
}

/// The map table of program 1 for the carousel of this id (ISO/IEC 13818-1, 2.4.4.8). `Err` is out
/// of memory.
///
/// Its 31 bytes have no clock and one stream, of type 0x0B on PID 256. The descriptors name the
/// carousel and the component tag 0x01.
pub fn written_pmt(alloc: Global, carousel: u32) -> Result<Vec<u8>, NoMemory>
    ensures spells { MakesList result (pmt_spelling carousel) }
    ensures reads { IfOk result (λ v. ReadsPmt v.items (pmt_value carousel)) }
    ensures is_read { IfOk result (λ v. read_pmt v.items ≡ Ok (pmt_value carousel)) }
    ensures framed { IfOk result (λ v. IsSectionLike v.items) }
{
    let [a, b, c, d] = carousel.to_be_bytes();
    let body = [
        0xFF, 0xFF, 0xF0, 0x00, KIND, 0xE1, 0x00, 0xF0, 0x0A, 0x13, 0x05, a, b, c, d, 0x00, 0x52,
        0x01, TAG,
    ];
    written_table(alloc, 0x02, &body)
}
