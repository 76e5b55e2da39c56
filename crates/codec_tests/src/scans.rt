//! Fields merged by a scan.

ghost use Rattle.std.specs.Prelude.{◌≡◌};

use pb_fields::*;

/// How many fields of bytes there are, and the last number of a varint. The number 9 is refused.
#[derive(Drop)]
struct Tally {
    strings: u8,
    last: u64,
}

impl<'a> Merge<'a> for Tally {
    type Fault = FieldFault;

    ghost merges = { λ before field after. before ≡ before };

    ghost refuses = { λ field fault. fault ≡ fault };

    fn merge_field(&mut self, field: Field<'a>) -> Result<(), FieldFault> {
        if field.number == 9 {
            return Err(FieldFault::BadKey);
        }
        match field.value {
            Value::Bytes(_) => self.strings = self.strings.saturating_add(1),
            Value::Varint(value) => self.last = value,
            Value::Eight(_) | Value::Four(_) => {}
        }
        Ok(())
    }
}

/// What a scan of these bytes has counted, and whether it went to their end.
fn tallied(bytes: &[u8]) -> (u8, u64, Option<FieldFault>) {
    let mut tally = Tally {
        strings: 0,
        last: 0,
    };
    let fault = scan(bytes, &mut tally).err();
    (tally.strings, tally.last, fault)
}

/// Bytes, and what a scan of them counts.
struct Counted {
    shows: &'static str,
    bytes: &'static [u8],
    /// The strings, the last varint, and the fault.
    counted: (u8, u64, Option<FieldFault>),
}

const COUNTED: &[Counted] = &[
    Counted {
        shows: "two varints and two byte strings",
        bytes: b"\x08\x01\x12\x01b\x08\x02\x1a\x00",
        counted: (2, 2, None),
    },
    Counted {
        shows: "a field that is cut short ends the scan",
        bytes: b"\x12\x01b\x12\x02b",
        counted: (1, 0, Some(FieldFault::Short)),
    },
    Counted {
        shows: "a field that is refused ends the scan, with a field behind it",
        bytes: b"\x08\x05\x48\x01\x12\x00",
        counted: (0, 5, Some(FieldFault::BadKey)),
    },
];

#[test]
fn a_scan_merges_each_field(rt: HostRuntime) {
    for row in COUNTED {
        assert!(rt; tallied(row.bytes) == row.counted, "{}", row.shows);
    }
}
