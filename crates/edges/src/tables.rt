// The tables of all lines.
// Table P: an asynchronous channel, a synchronous one, and a chord of both that wants one property.
pub const P: [u8; 20] = *b"\x02\0\x01\0\x02\0\x0c\0\x0e\0\x12\0\0\x01\0\0\x02\x01\0\x01";

// Table P, but its chord wants one property and one unit.
pub const UNITS: [u8; 20] = *b"\x02\0\x01\0\x02\0\x0c\0\x0e\0\x12\0\0\x01\0\0\x02\x02\0\x01";

// One asynchronous channel and no chord.
pub const ONE: [u8; 13] = *b"\x01\0\0\0\0\0\x0c\0\x0d\0\x0d\0\0";

// Two asynchronous channels and a chord that names both.
pub const TWO: [u8; 20] = *b"\x02\0\x01\0\x02\0\x0c\0\x0e\0\x12\0\0\0\0\0\x02\0\0\x01";

// A synchronous channel between two asynchronous ones; chords 0 1, and 0 2 that wants one property and one unit.
pub const WAKED: [u8; 27] =
    *b"\x03\0\x02\0\x04\0\x0c\0\x0f\0\x17\0\0\x01\0\0\0\x02\0\x02\0\x02\x02\0\x01\0\x02";

// An asynchronous channel and two synchronous ones; chords 0 1, 0 0 and 1 2 0.
pub const Q: [u8; 34] =
    *b"\x03\0\x03\0\x07\0\x0c\0\x0f\0\x1b\0\0\x01\x01\0\0\x02\0\x02\0\x02\0\x04\0\x03\0\0\x01\0\0\x01\x02\0";
