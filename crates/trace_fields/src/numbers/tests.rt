use super::*;

#[test]
fn decimals_below_a_bound(rt: HostRuntime) {
    for (field, told) in [
        ("0", Some(0)),
        ("31", Some(31)),
        ("32", None),
        ("031", None),
        ("00", None),
        ("+31", None),
        ("-1", None),
        ("1f", None),
        ("1 ", None),
        ("", None),
        ("18446744073709551616", None),
    ] {
        assert_eq!(rt; decimal_below(field.as_bytes(), 32), told, "at {field}");
    }
}

#[test]
fn decimals_of_64_bits(rt: HostRuntime) {
    for (field, told) in [
        ("18446744073709551614", Some(u64::MAX - 1)),
        ("18446744073709551615", None),
    ] {
        assert_eq!(rt;
            decimal_below(field.as_bytes(), u64::MAX),
            told,
            "at {field}"
        );
    }
}

#[test]
fn counts_from_one(rt: HostRuntime) {
    for (field, told) in [
        ("1", Some(1)),
        ("16", Some(16)),
        ("0", None),
        ("17", None),
        ("01", None),
        ("+1", None),
        ("one", None),
        ("", None),
    ] {
        assert_eq!(rt; count_below(field.as_bytes(), 17), told, "at {field}");
    }
}

#[test]
fn hexadecimal_digits(rt: HostRuntime) {
    for (field, told) in [
        ("0", Some(0)),
        ("84000abc", Some(0x8400_0abc)),
        ("ffffffffffffffff", Some(u64::MAX)),
        ("10000000000000000", None),
        ("0ff", None),
        ("00", None),
        ("fF", None),
        ("+ff", None),
        ("-1", None),
        ("0xff", None),
        ("fg", None),
        ("f_f", None),
        ("", None),
    ] {
        assert_eq!(rt; hex_of(field.as_bytes()), told, "at {field}");
    }
}

#[test]
fn what_is_no_text(rt: HostRuntime) {
    assert_eq!(rt; hex_of(&[b'f', 0xff]), None);
}

#[test]
fn hexadecimal_digits_of_some_bits(rt: HostRuntime) {
    for (field, bits, told) in [
        ("0", 0, Some(0)),
        ("1", 0, None),
        ("ff", 8, Some(0xff)),
        ("100", 8, None),
        ("7fffffffffffffff", 63, Some(u64::MAX >> 1)),
        ("8000000000000000", 63, None),
        ("ffffffffffffffff", 64, Some(u64::MAX)),
        ("0f", 64, None),
    ] {
        assert!(rt; bits <= 64);
        assert_eq!(rt; hex_of_bits(field.as_bytes(), bits), told, "at {field}");
    }
}

#[test]
fn words_of_eight_digits(rt: HostRuntime) {
    for (field, told) in [
        ("0000b083", Some(0x0000_b083)),
        ("00000000", Some(0)),
        ("ffffffff", Some(u32::MAX)),
        ("b083", None),
        ("00000b083", None),
        ("0000B083", None),
        ("+000b083", None),
        ("0000b08g", None),
        ("0x00b083", None),
        ("", None),
    ] {
        assert_eq!(rt; word_of(field.as_bytes()), told, "at {field}");
    }
}

#[test]
fn bytes_of_two_digits(rt: HostRuntime) {
    for (field, told) in [
        ("00", Some(0)),
        ("0a", Some(10)),
        ("ff", Some(u8::MAX)),
        ("a", None),
        ("00a", None),
        ("0A", None),
        ("+a", None),
        ("0 ", None),
        ("", None),
    ] {
        assert_eq!(rt; byte_of(field.as_bytes()), told, "at {field}");
    }
}
