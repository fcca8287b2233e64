use proto_wire::{
    Field, Fields, Malformed, OptionalField, Value, Writer, write_fields, write_fields_into,
};
use std::alloc::{AllocError, Global};
use std::process::Abort;

// How many fields are read, and the offset where none can be read.
fn walk(bytes: &[u8]) -> (usize, Option<usize>) {
    let mut count: usize = 0;
    for field in Fields::new(bytes) {
        match field {
            Ok(_) => count = count.saturating_add(1),
            Err(Malformed { at }) => return (count, Some(at)),
        }
    }
    (count, None)
}

// A request of pw_rpc: channel 1, a service, a method, the payload `abc`, call 1.
const REQUEST: [u8; 19] = [
    0x10, 0x01, 0x1d, 0xfb, 0x5c, 0xf4, 0x70, 0x25, 0xe9, 0x0e, 0x47, 0x8b, 0x2a, 0x03, 0x61, 0x62,
    0x63, 0x38, 0x01,
];

// Each field of the request, and where the next one begins.
const FIELDS: &[(Field<'static>, usize)] = &[
    (
        Field {
            number: 2,
            value: Value::Varint(1),
        },
        2,
    ),
    (
        Field {
            number: 3,
            value: Value::Fixed32(0x70f4_5cfb),
        },
        7,
    ),
    (
        Field {
            number: 4,
            value: Value::Fixed32(0x8b47_0ee9),
        },
        12,
    ),
    (
        Field {
            number: 5,
            value: Value::Bytes(b"abc"),
        },
        17,
    ),
    (
        Field {
            number: 7,
            value: Value::Varint(1),
        },
        19,
    ),
];

fn gives(rt: &impl Abort, fields: &mut Fields<'_>, want: Option<Result<Field<'_>, Malformed>>) {
    assert_eq!(rt; fields.next(), want);
}

fn is_at(rt: &impl Abort, fields: &Fields<'_>, want: usize) {
    assert_eq!(rt; fields.at(), want);
}

fn are_bytes(rt: &impl Abort, bytes: &[u8], want: &[u8]) {
    assert_eq!(rt; bytes, want);
}

fn reads_request(rt: &impl Abort) {
    let mut fields = Fields::new(&REQUEST);
    for (field, at) in FIELDS {
        gives(rt, &mut fields, Some(Ok(*field)));
        is_at(rt, &fields, *at);
    }
    gives(rt, &mut fields, None);
}

#[test]
fn a_request_is_read_and_written(rt: HostRuntime) -> Result<(), AllocError> {
    reads_request(&rt);
    let mut out = Vec::new(rt.alloc());
    let mut writer = Writer::new(&mut out);
    writer.varint(2, 1)?;
    writer.fixed32(3, 0x70f4_5cfb)?;
    writer.fixed32(4, 0x8b47_0ee9)?;
    writer.bytes(5, b"abc")?;
    writer.varint(7, 1)?;
    are_bytes(&rt, out.as_slice(), &REQUEST);
    Ok(())
}

// Where the fields of the request begin, and where it ends.
const STARTS: &[usize] = &[0, 2, 7, 12, 17, 19];

// Where the last of them begins that begins at or before this offset, and how many end there.
fn begun_before(end: usize) -> (usize, usize) {
    let mut begun = 0;
    let mut whole: usize = 0;
    for start in STARTS {
        if *start != 0 && *start <= end {
            begun = *start;
            whole = whole.saturating_add(1);
        }
    }
    (begun, whole)
}

fn is_walked(rt: &impl Abort, bytes: &[u8], want: (usize, Option<usize>)) {
    assert_eq!(rt; walk(bytes), want, "{bytes:?}");
}

fn is_cut(rt: &impl Abort, end: usize) {
    let (front, _) = REQUEST.split_at(end.min(19));
    let (begun, whole) = begun_before(end);
    let fault = if begun == end { None } else { Some(begun) };
    is_walked(rt, front, (whole, fault));
}

#[test]
fn a_request_cut_short_is_malformed_at_its_last_field(rt: HostRuntime) {
    for end in 0..20usize {
        is_cut(&rt, end);
    }
}

const WALKS: &[(&[u8], (usize, Option<usize>))] = &[
    (&[], (0, None)),
    // Longer spellings, and the longest varint.
    (&[0x10, 0x85, 0x80, 0x00], (1, None)),
    (&[0x90, 0x80, 0x00, 0x01], (1, None)),
    (
        &[0x08, 255, 255, 255, 255, 255, 255, 255, 255, 255, 0x01],
        (1, None),
    ),
    // A varint of 2^64 and one of eleven bytes.
    (
        &[0x08, 128, 128, 128, 128, 128, 128, 128, 128, 128, 0x02],
        (0, Some(0)),
    ),
    (
        &[0x08, 128, 128, 128, 128, 128, 128, 128, 128, 128, 128, 0x00],
        (0, Some(0)),
    ),
    // Groups and the wire types without a meaning, behind a field.
    (&[0x08, 0x01, 0x0b], (1, Some(2))),
    (&[0x08, 0x01, 0x0c], (1, Some(2))),
    (&[0x08, 0x01, 0x0e, 0x01], (1, Some(2))),
    (&[0x08, 0x01, 0x0f, 0x01], (1, Some(2))),
    // Field number 0, the largest one, and a tag of 2^32.
    (&[0x00, 0x01], (0, Some(0))),
    (&[0xf8, 255, 255, 255, 0x0f, 0x01], (1, None)),
    (&[0x80, 0x80, 0x80, 0x80, 0x10, 0x01], (0, Some(0))),
    // Bytes shorter than their length, and a length near 2^64.
    (&[0x0a, 0x02, 0x61], (0, Some(0))),
    (
        &[0x0a, 255, 255, 255, 255, 255, 255, 255, 255, 255, 0x01],
        (0, Some(0)),
    ),
    // Eight bytes, cut.
    (&[0x09, 1, 2, 3, 4, 5, 6, 7], (0, Some(0))),
];

#[test]
fn malformed_fields_are_refused_where_they_stand(rt: HostRuntime) {
    for (bytes, want) in WALKS {
        is_walked(&rt, bytes, *want);
    }
    let mut fields = Fields::new(&[0x08, 0x01, 0x0b]);
    assert!(rt; fields.next().is_some());
    gives(&rt, &mut fields, Some(Err(Malformed { at: 2 })));
    is_at(&rt, &fields, 2);
    gives(&rt, &mut fields, None);
}

fn is_uint32(rt: &impl Abort, value: Value<'_>, want: Option<u32>) {
    assert_eq!(rt; value.as_uint32(), want);
}

// What is left out as it is zero or empty isn't written.
fn write_values(out: &mut Vec<u8>, room: &mut [u8]) -> Result<Option<usize>, AllocError> {
    let fields = [
        OptionalField {
            number: 1,
            value: Value::nonzero_varint(300),
        },
        OptionalField {
            number: 2,
            value: Value::nonzero_varint(0),
        },
        OptionalField {
            number: 3,
            value: Value::nonempty_bytes(b""),
        },
        OptionalField {
            number: 4,
            value: Value::nonempty_bytes(b"hi"),
        },
        OptionalField {
            number: 5,
            value: Value::nonzero_fixed32(0),
        },
        OptionalField {
            number: 6,
            value: Value::nonzero_fixed32(1),
        },
        OptionalField {
            number: 7,
            value: Some(Value::Fixed64(2)),
        },
    ];
    write_fields(out, &fields)?;
    Ok(write_fields_into(room, &fields))
}

const WRITTEN: &[u8] = &[
    0x08, 0xac, 0x02, 0x22, 0x02, 0x68, 0x69, 0x35, 0x01, 0, 0, 0, 0x39, 0x02, 0, 0, 0, 0, 0, 0, 0,
];

fn writes(
    rt: &impl Abort,
    alloc: Global,
    room: usize,
    want: Option<usize>,
) -> Result<(), AllocError> {
    let mut out = Vec::new(alloc);
    let mut buffer = vec![in alloc; 0xff; room]?;
    assert_eq!(rt; write_values(&mut out, &mut buffer)?, want);
    are_bytes(rt, out.as_slice(), WRITTEN);
    if let Some(count) = want {
        are_bytes(rt, &buffer[..count.min(room)], WRITTEN);
    }
    Ok(())
}

#[test]
fn values_are_read_by_their_types(rt: HostRuntime) -> Result<(), AllocError> {
    is_uint32(&rt, Value::Varint(4_294_967_295), Some(4_294_967_295));
    is_uint32(&rt, Value::Varint(4_294_967_296), None);
    assert_eq!(rt; Value::Fixed32(1).as_uint64(), None);
    assert_eq!(rt; Value::Fixed32(1).as_fixed32(), Some(1));
    assert_eq!(rt; Value::Bytes(b"a").as_bytes(), Some(&b"a"[..]));
    writes(&rt, rt.alloc(), 22, Some(21))?;
    writes(&rt, rt.alloc(), 20, None)
}
