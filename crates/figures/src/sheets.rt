// Sheets that are read, sheets that are refused, and the values of graphs.
ghost use Rattle.std.specs.Prelude.{◌<◌};

use faults::{Fault, Place};
use sheet::Job;
use std::alloc::{AllocError, Global};
use std::process::Abort;
use std::test::Fail;

// Two steps, two inputs of 8 bits, and their sum of 8 bits as the output.
const WORKED: [u8; 15] = [
    0x10, 0x02, 0x11, 0x08, 0x11, 0x08, 0x12, 0x08, 0x00, 0x00, 0x01, 0x00, 0x14, 0x40, 0x1F,
];

// Each sheet is refused by this number, at the place beside it.
fn refused(rt: &(impl Abort + AllocGlobal), number: u8, cases: &[(&[u8], usize)]) {
    for (sheet, at) in cases {
        let fault = Job::read(rt.alloc(), sheet).err();
        assert_eq!(rt;
            fault.map(|fault| (fault.number(), fault.place())),
            Some((number, Place::At(*at))),
            "reading {sheet:?}"
        );
    }
}

#[test]
fn worked_sheet(rt: HostRuntime) -> Result<(), Fail> {
    let job = Job::read(rt.alloc(), &WORKED)?;
    assert_eq!(rt; job.limit(), 2);
    assert_eq!(rt; job.inputs().len(), 2);
    assert_eq!(rt; job.operations().len(), 1);
    assert_eq!(rt; job.outputs().len(), 1);
    let mut out = [7i64; 3];
    assert_eq!(rt; job.output_values(&[100, 100], &mut out), Ok(1));
    assert_eq!(rt; out, [-56, 7, 7]);
    assert_eq!(rt; job.operation_values(&[100, 27], &mut out), Ok(1));
    assert_eq!(rt; out, [127, 7, 7]);
    Ok(())
}

#[test]
fn refused_calls(rt: HostRuntime) -> Result<(), Fail> {
    let job = Job::read(rt.alloc(), &WORKED)?;
    let mut out = [7i64; 1];
    assert_eq!(rt;
        job.output_values(&[100], &mut out),
        Err(Fault::SampleCount(2))
    );
    assert_eq!(rt;
        job.output_values(&[1, 2, 3], &mut []),
        Err(Fault::SampleCount(2))
    );
    assert_eq!(rt;
        job.output_values(&[1, 2], &mut []),
        Err(Fault::BufferTooShort(1))
    );
    assert_eq!(rt;
        job.operation_values(&[], &mut out),
        Err(Fault::SampleCount(2))
    );
    assert_eq!(rt;
        job.operation_values(&[1, 2], &mut []),
        Err(Fault::BufferTooShort(1))
    );
    assert_eq!(rt; out, [7]);
    Ok(())
}

#[test]
fn unknown_commands(rt: HostRuntime) {
    refused(
        &rt,
        1,
        &[
            (&[0x15], 0),
            (&[0x10, 0x02, 0x00, 0x11], 2),
            (&[0x10, 0x02, 0x11, 0x08, 0xFF], 4),
        ],
    );
}

// Cut short goes before out of order.
#[test]
fn cut_short(rt: HostRuntime) {
    refused(
        &rt,
        2,
        &[
            (&[], 0),
            (&[0x10], 0),
            (&[0x10, 0x02], 2),
            (&[0x12, 0x08], 0),
            (&[0x10, 0x02, 0x12, 0x08, 0x00, 0x00, 0x01], 2),
            (&WORKED[0..14], 14),
        ],
    );
}

#[test]
fn out_of_order(rt: HostRuntime) {
    refused(
        &rt,
        3,
        &[
            (&[0x11, 0x08], 0),
            (&[0x1F], 0),
            (&[0x10, 0x02, 0x10, 0x02], 2),
            (&[0x10, 0x02, 0x14, 0x40], 2),
            (&[0x10, 0x02, 0x1F], 2),
            // an INPUT and an END behind an operation, an operation behind an OUTPUT
            (
                &[
                    0x10, 0x02, 0x11, 0x08, 0x12, 0x08, 0x00, 0x00, 0x00, 0x00, 0x11, 0x08,
                ],
                10,
            ),
            (
                &[
                    0x10, 0x02, 0x11, 0x08, 0x12, 0x08, 0x00, 0x00, 0x00, 0x00, 0x1F,
                ],
                10,
            ),
            (
                &[
                    0x10, 0x02, 0x11, 0x08, 0x12, 0x08, 0x00, 0x00, 0x00, 0x00, 0x14, 0x40, 0x12,
                    0x08, 0x00, 0x00, 0x00, 0x00,
                ],
                12,
            ),
        ],
    );
}

// Any byte behind END is out of order, even one that is no command.
#[test]
fn behind_the_end(rt: HostRuntime) -> Result<(), Fail> {
    for byte in [0xFF, 0x1F] {
        let mut more = WORKED.to_vec(rt.alloc())?;
        more.push(byte)?;
        refused(&rt, 3, &[(&more, 15)]);
    }
    Ok(())
}

#[test]
fn out_of_range(rt: HostRuntime) {
    refused(
        &rt,
        5,
        &[
            (&[0x10, 0x00], 0),
            (&[0x10, 0x41], 0),
            (&[0x10, 0x02, 0x11, 0x00], 2),
            (&[0x10, 0x02, 0x11, 0x29], 2),
            // widths: ADD 0 and 41; MULTIPLY 8 x 9, 40 x 25, 41 x 8, 8 x 0
            (&[0x10, 0x02, 0x12, 0x00, 0x00, 0x00, 0x00, 0x00], 2),
            (&[0x10, 0x02, 0x12, 0x29, 0x00, 0x00, 0x00, 0x00], 2),
            (&[0x10, 0x02, 0x13, 0x08, 0x09, 0x00, 0x00, 0x00, 0x00], 2),
            (&[0x10, 0x02, 0x13, 0x28, 0x19, 0x00, 0x00, 0x00, 0x00], 2),
            (&[0x10, 0x02, 0x13, 0x29, 0x08, 0x00, 0x00, 0x00, 0x00], 2),
            (&[0x10, 0x02, 0x13, 0x08, 0x00, 0x00, 0x00, 0x00, 0x00], 2),
        ],
    );
}

// The worked sheet with another byte at one place.
fn worked_with(at: usize, byte: u8) -> [u8; 15]
    requires { at < 15 }
{
    let mut sheet = WORKED;
    sheet[at] = byte;
    sheet
}

// Sources 16 to 63 and from 128 on, drops above 63, and an output that is no operation; 5 goes before 6.
#[test]
fn sources_out_of_range(rt: HostRuntime) {
    refused(
        &rt,
        5,
        &[
            (&[0x10, 0x02, 0x12, 0x08, 0x10, 0x00, 0x00, 0x00], 2),
            (&[0x10, 0x02, 0x12, 0x08, 0x00, 0x00, 0x3F, 0x00], 2),
            (&[0x10, 0x02, 0x12, 0x08, 0x80, 0x00, 0x00, 0x00], 2),
            (&[0x10, 0x02, 0x12, 0x08, 0x00, 0x00, 0x00, 0x40], 2),
            (&worked_with(13, 0x00), 12),
            (&worked_with(13, 0x80), 12),
        ],
    );
}

// An input that is not there, also where others are, the operation itself, and an output that is not there.
#[test]
fn names_nothing(rt: HostRuntime) {
    refused(
        &rt,
        6,
        &[
            (&[0x10, 0x02, 0x12, 0x08, 0x00, 0x00, 0x00, 0x00], 2),
            (&worked_with(10, 0x02), 6),
            (&worked_with(10, 0x40), 6),
            (&worked_with(13, 0x41), 12),
        ],
    );
}

// So many inputs of 40 bits, a sum that grows by the first input with each operation, and so many outputs, the last operations.
fn ladder(alloc: Global, inputs: u8, operations: u8, outputs: u8) -> Result<Vec<u8>, AllocError> {
    let mut bytes = Vec::new(alloc);
    bytes.extend_from_slice(&[0x10, 64])?;
    bytes.extend((0..inputs).flat_map(|_| [0x11, 40]))?;
    bytes.extend((0..operations).flat_map(|o| {
        let source = if o == 0 { 0 } else { o.saturating_add(63) };
        [0x12, 40, source, 0, 0, 0]
    }))?;
    bytes.extend((0..outputs).flat_map(|k| [0x14, k.saturating_add(112)]))?;
    bytes.push(0x1F)?;
    Ok(bytes)
}

#[test]
fn largest_sheet(rt: HostRuntime) -> Result<(), Fail> {
    let bytes = ladder(rt.alloc(), 16, 64, 16)?;
    assert_eq!(rt; bytes.len(), 451);
    let job = Job::read(rt.alloc(), &bytes)?;
    let mut samples = [0i64; 16];
    samples[0] = 1;
    let mut out = [0i64; 16];
    assert_eq!(rt; job.output_values(&samples, &mut out), Ok(16));
    assert_eq!(rt;
        out,
        [
            50, 51, 52, 53, 54, 55, 56, 57, 58, 59, 60, 61, 62, 63, 64, 65,
        ]
    );
    Ok(())
}

// One more of each is refused at its own position, whatever else is wrong with it.
#[test]
fn too_many(rt: HostRuntime) -> Result<(), Fail> {
    let mut narrow = ladder(rt.alloc(), 16, 0, 0)?;
    narrow.truncate(34);
    narrow.extend_from_slice(&[0x11, 0])?;
    refused(
        &rt,
        4,
        &[
            (&ladder(rt.alloc(), 17, 64, 16)?, 34),
            (&ladder(rt.alloc(), 16, 65, 16)?, 418),
            (&ladder(rt.alloc(), 16, 64, 17)?, 450),
            (&narrow, 34),
        ],
    );
    Ok(())
}
