//! Fields read and written, and encoded as messages.

ghost use Rattle.std.specs.Prelude.{◌++◌};
ghost use Rattle.pb_fields.specs.Field.{IsNumber};
ghost use Rattle.pb_fields.specs.Encoding.{bool_field, varint_field};

use pb_fields::*;
use std::alloc::{AllocError, Global};

/// What follows the fields that a row names.
enum Then {
    /// It isn't looked at.
    Rest,
    /// No field.
    End,
    /// This fault, and no field after it.
    Fault(FieldFault),
}

use Then::{End, Fault, Rest};

/// Bytes, and the fields that are read from them.
struct Read {
    shows: &'static str,
    bytes: &'static [u8],
    /// Their numbers and values.
    fields: &'static [(u32, Value<'static>)],
    then: Then,
}

/// Fields of both kinds, with the greatest number and with one of two bytes.
const FOUR_FIELDS: &[u8] =
    b"\x0a\x01b\x12\x01k\x80\x01\xac\x02\xf8\xff\xff\xff\x0f\xff\xff\xff\xff\xff\xff\xff\xff\xff\x01";

/// Protocol Buffers' own examples; the wire types of the formats, numbers of more than one byte, and encodings that aren't
/// the shortest. Then the faults of the formats, in their order: where two hold the first is returned.
const READS: &[Read] = &[
    Read {
        shows: "the documentation's Test1 with 150",
        bytes: b"\x08\x96\x01",
        fields: &[(1, Value::Varint(150))],
        then: Rest,
    },
    Read {
        shows: "the documentation's Test2 with the text testing",
        bytes: b"\x12\x07testing",
        fields: &[(2, Value::Bytes(b"testing"))],
        then: Rest,
    },
    Read {
        shows: "no bytes have no field",
        bytes: b"",
        fields: &[],
        then: End,
    },
    Read {
        shows: "eight bytes",
        bytes: b"\x09\x01\x02\x03\x04\x05\x06\x07\x08\x09",
        fields: &[(1, Value::Eight(b"\x01\x02\x03\x04\x05\x06\x07\x08"))],
        then: Rest,
    },
    Read {
        shows: "four bytes",
        bytes: b"\x0d\x01\x02\x03\x04\x05",
        fields: &[(1, Value::Four(b"\x01\x02\x03\x04"))],
        then: Rest,
    },
    Read {
        shows: "a string of no bytes",
        bytes: b"\x12\x00",
        fields: &[(2, Value::Bytes(b""))],
        then: Rest,
    },
    Read {
        shows: "a number of two bytes",
        bytes: b"\x98\x06\x05",
        fields: &[(99, Value::Varint(5))],
        then: Rest,
    },
    Read {
        shows: "a length in two bytes where one does",
        bytes: b"\x0a\x81\x00\x62",
        fields: &[(1, Value::Bytes(b"\x62"))],
        then: Rest,
    },
    Read {
        shows: "the greatest number",
        bytes: b"\xf8\xff\xff\xff\x0f\x00",
        fields: &[(MAX_FIELD_NUMBER, Value::Varint(0))],
        then: Rest,
    },
    Read {
        shows: "four fields that were written",
        bytes: FOUR_FIELDS,
        fields: &[
            (1, Value::Bytes(b"b")),
            (2, Value::Bytes(b"k")),
            (16, Value::Varint(300)),
            (MAX_FIELD_NUMBER, Value::Varint(u64::MAX)),
        ],
        then: End,
    },
    Read {
        shows: "eleven bytes of a value",
        bytes: b"\x18\xff\xff\xff\xff\xff\xff\xff\xff\xff\xff\x01",
        fields: &[],
        then: Fault(FieldFault::BadVarint),
    },
    Read {
        shows: "eleven bytes of a key",
        bytes: b"\xff\xff\xff\xff\xff\xff\xff\xff\xff\xff\x01",
        fields: &[],
        then: Fault(FieldFault::BadVarint),
    },
    Read {
        shows: "ten bytes of a length that go on",
        bytes: b"\x1a\x80\x80\x80\x80\x80\x80\x80\x80\x80\x80",
        fields: &[],
        then: Fault(FieldFault::BadVarint),
    },
    Read {
        shows: "ten bytes of a value that go on, before the number 0",
        bytes: b"\x00\x80\x80\x80\x80\x80\x80\x80\x80\x80\x80",
        fields: &[],
        then: Fault(FieldFault::BadVarint),
    },
    Read {
        shows: "a key that is cut short",
        bytes: b"\x80",
        fields: &[],
        then: Fault(FieldFault::Short),
    },
    Read {
        shows: "the number 0",
        bytes: b"\x00\x01",
        fields: &[],
        then: Fault(FieldFault::BadKey),
    },
    Read {
        shows: "the number 0, before a wire type that is none",
        bytes: b"\x07",
        fields: &[],
        then: Fault(FieldFault::BadKey),
    },
    Read {
        shows: "a number above the greatest",
        bytes: b"\x80\x80\x80\x80\x10\x01",
        fields: &[],
        then: Fault(FieldFault::BadKey),
    },
    Read {
        shows: "the wire type 3",
        bytes: b"\x0b",
        fields: &[],
        then: Fault(FieldFault::BadWire),
    },
    Read {
        shows: "the wire type 4",
        bytes: b"\x0c",
        fields: &[],
        then: Fault(FieldFault::BadWire),
    },
    Read {
        shows: "the wire type 6",
        bytes: b"\x0e",
        fields: &[],
        then: Fault(FieldFault::BadWire),
    },
    Read {
        shows: "the wire type 7",
        bytes: b"\x0f",
        fields: &[],
        then: Fault(FieldFault::BadWire),
    },
    Read {
        shows: "a varint of no bytes",
        bytes: b"\x08",
        fields: &[],
        then: Fault(FieldFault::Short),
    },
    Read {
        shows: "a varint that is cut short",
        bytes: b"\x08\x80",
        fields: &[],
        then: Fault(FieldFault::Short),
    },
    Read {
        shows: "seven of eight bytes",
        bytes: b"\x09\x01\x02\x03\x04\x05\x06\x07",
        fields: &[],
        then: Fault(FieldFault::Short),
    },
    Read {
        shows: "a length that is cut short",
        bytes: b"\x12\x80",
        fields: &[],
        then: Fault(FieldFault::Short),
    },
    Read {
        shows: "one of two bytes of a string",
        bytes: b"\x12\x02\x62",
        fields: &[],
        then: Fault(FieldFault::Short),
    },
    Read {
        shows: "three of four bytes",
        bytes: b"\x0d\x01\x02\x03",
        fields: &[],
        then: Fault(FieldFault::Short),
    },
];

/// The fields are read from the bytes, and then what the row names.
fn reads(row: &Read) -> bool {
    let mut fields = Fields::new(row.bytes);
    for (number, value) in row.fields {
        let field = Field {
            number: *number,
            value: *value,
        };
        if fields.next() != Some(Ok(field)) {
            return false;
        }
    }
    match row.then {
        Rest => true,
        End => fields.next().is_none(),
        Fault(fault) => fields.next() == Some(Err(fault)) && fields.next().is_none(),
    }
}

#[test]
fn reads_fields_and_the_first_fault(rt: HostRuntime) {
    for row in READS {
        assert!(rt; reads(row), "{}", row.shows);
    }
}

/// This varint is appended: where memory is refused the bytes are as before, and the same call again does what it
/// would have done.
fn append_varint(out: &mut Vec<u8>, number: u32, value: u64) -> bool
    requires { IsNumber number }
{
    let before = out.len();
    if FieldOut::varint(out, number, value).is_ok() {
        return true;
    }
    out.len() == before && FieldOut::varint(out, number, value).is_ok()
}

/// The same of bytes.
fn append_bytes(out: &mut Vec<u8>, number: u32, content: &[u8]) -> bool
    requires { IsNumber number }
{
    let before = out.len();
    if FieldOut::bytes(out, number, content).is_ok() {
        return true;
    }
    out.len() == before && FieldOut::bytes(out, number, content).is_ok()
}

/// The four fields are appended.
fn writes_fields(out: &mut Vec<u8>) -> bool {
    append_bytes(out, 1, b"b")
        && append_bytes(out, 2, b"k")
        && append_varint(out, 16, 300)
        && append_varint(out, MAX_FIELD_NUMBER, u64::MAX)
}

/// A number in field 1, and whether it is even in field 2.
#[derive(Drop)]
struct Number {
    number: u64,
    is_even: bool,
}

impl Message for Number {
    ghost encoding = { λ n. varint_field 1 n.number ++ bool_field 2 n.is_even };

    fn encode<O: Output>(&self, out: &mut O) -> Result<(), AllocError> {
        out.encode_varint(1, self.number)?;
        out.encode_bool(2, self.is_even)
    }
}

/// Two numbers as the field 3 of a message, as the Protocol Buffers documentation encodes submessages.
fn append_numbers(out: &mut Vec<u8>) -> Result<(), AllocError> {
    let even = Number {
        number: 150,
        is_even: true,
    };
    let odd = Number {
        number: 1,
        is_even: false,
    };
    encode_repeated(out, 3, &[even, odd])
}

/// The same, once more from nothing where memory was refused.
fn appends_numbers(out: &mut Vec<u8>) -> bool {
    if append_numbers(out).is_ok() {
        return true;
    }
    out.clear();
    append_numbers(out).is_ok()
}

/// What is written.
enum Content {
    /// The four fields, one after another.
    Fields,
    /// The two numbers, as submessages.
    Numbers,
}

/// What is written, and its bytes.
struct Written {
    shows: &'static str,
    what: Content,
    bytes: &'static [u8],
}

const WRITTEN: &[Written] = &[
    Written {
        shows: "four fields as they are read",
        what: Content::Fields,
        bytes: FOUR_FIELDS,
    },
    Written {
        shows: "two submessages",
        what: Content::Numbers,
        bytes: b"\x1a\x05\x08\x96\x01\x10\x01\x1a\x02\x08\x01",
    },
];

/// What the row names is written, as its bytes.
fn writes(alloc: Global, row: &Written) -> bool {
    let mut out = Vec::new(alloc);
    let is_written = match row.what {
        Content::Fields => writes_fields(&mut out),
        Content::Numbers => appends_numbers(&mut out),
    };
    is_written && out.as_slice() == row.bytes
}

#[test]
fn writes_what_is_read(rt: HostRuntime) {
    for row in WRITTEN {
        assert!(rt; writes(rt.alloc(), row), "{}", row.shows);
    }
}
