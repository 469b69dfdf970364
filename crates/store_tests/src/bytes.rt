//! State bytes that were written down by hand.

/// The state of a site that has accepted nothing.
pub const FREE: &[u8] = &[0xFE, 0x43, 0x55, 0x45, 2, 0, 0, 0, 0, 0, 0, 0, 0];

/// The state of `a: 1`.
pub const ONE: &[u8] = &[
    0xFE, 0x43, 0x55, 0x45, 2, 0, 0, 0, 0, 0, 0, 0, 2, // two rows
    0, 0, 2, 0, // the root
    1, 0, 0, 1, 0x61, 2, 1, // a scalar at the label a
    0, 0, 0, 0, 0, 0, 0, 0, 1, // a set of one piece
    0, 0, 0, 0, 0, 0, 0, 1, 0, 0, 0, 0, 0, 0, 0, 1, // from 1 to 1
    0, 0, 0, 0, 0, 0, 0, 0, 0, // no text
    0, 0, 0, 0, 0, 0, 0, 0, 1, // the usual set is the same
    0, 0, 0, 0, 0, 0, 0, 1, 0, 0, 0, 0, 0, 0, 0, 1, //
    0, 0, 0, 0, 0, 0, 0, 0, 0,
];

/// The state of `a: 1` and `a: 2`.
pub const CLASH: &[u8] = &[
    0xFE, 0x43, 0x55, 0x45, 2, 0, 0, 0, 0, 0, 0, 0, 2, // two rows
    0, 0, 2, 0, // the root
    1, 0, 0, 1, 0x61, 2, 4, // nothing at the label a
    0, 0, 0, 0, 0, 0, // all labels, and lists of any length
    0, 0, 0, 0, // whose elements are alike from the first on
];

/// The state of `a: int` and `b: -1`.
pub const TWO: &[u8] = &[
    0xFE, 0x43, 0x55, 0x45, 2, 0, 0, 0, 0, 0, 0, 0, 3, // three rows
    0, 0, 2, 0, // the root
    1, 0, 0, 1, 0x61, 2, 1, // a scalar at the label a
    0, 0, 0, 0, 0, 0, 0, 0, 1, // a set of one piece
    0x80, 0, 0, 0, 0, 0, 0, 0, // from the least
    0x7F, 0xFF, 0xFF, 0xFF, 0xFF, 0xFF, 0xFF, 0xFF, // to the greatest
    0, 0, 0, 0, 0, 0, 0, 0, 0, // no text
    0, 0, 0, 0, 0, 0, 0, 0, 1, // the usual set is the same
    0x80, 0, 0, 0, 0, 0, 0, 0, 0x7F, 0xFF, 0xFF, 0xFF, 0xFF, 0xFF, 0xFF, 0xFF, //
    0, 0, 0, 0, 0, 0, 0, 0, 0, //
    1, 0, 0, 1, 0x62, 2, 1, // a scalar at the label b
    0, 0, 0, 0, 0, 0, 0, 0, 1, // a set of one piece
    0xFF, 0xFF, 0xFF, 0xFF, 0xFF, 0xFF, 0xFF, 0xFF, // from -1
    0xFF, 0xFF, 0xFF, 0xFF, 0xFF, 0xFF, 0xFF, 0xFF, // to -1
    0, 0, 0, 0, 0, 0, 0, 0, 0, // no text
    0, 0, 0, 0, 0, 0, 0, 0, 1, // the usual set is the same
    0xFF, 0xFF, 0xFF, 0xFF, 0xFF, 0xFF, 0xFF, 0xFF, //
    0xFF, 0xFF, 0xFF, 0xFF, 0xFF, 0xFF, 0xFF, 0xFF, //
    0, 0, 0, 0, 0, 0, 0, 0, 0,
];

/// The state of `a: 1` and `a: 2` in the first version of state bytes.
pub const FIRST_CLASH: &[u8] = &[
    0xFE, 0x43, 0x55, 0x45, 1, 0, 0, 0, 0, 0, 0, 0, 2, // two rows
    0, 0, 2, 0, // the root
    1, 0, 0, 1, 0x61, 2, 4, // nothing at the label a
    0, 0, 0, 0, 0, 0,
];

/// The state of `l: [...int]`.
pub const REST: &[u8] = &[
    0xFE, 0x43, 0x55, 0x45, 2, 0, 0, 0, 0, 0, 0, 0, 3, // three rows
    0, 0, 2, 0, // the root
    1, 0, 0, 1, 0x6C, 2, 3, // a list at the label l
    0, 0, 0, 0, 0, 0, 0, 0, 0, // of any length, whose elements are alike from the first on
    2, 0, 0, 1, 0x6C, 2, 0, 1, // a scalar in its rest
    0, 0, 0, 0, 0, 0, 0, 0, 1, // a set of one piece
    0x80, 0, 0, 0, 0, 0, 0, 0, // from the least
    0x7F, 0xFF, 0xFF, 0xFF, 0xFF, 0xFF, 0xFF, 0xFF, // to the greatest
    0, 0, 0, 0, 0, 0, 0, 0, 0, // no text
    0, 0, 0, 0, 0, 0, 0, 0, 1, // the usual set is the same
    0x80, 0, 0, 0, 0, 0, 0, 0, 0x7F, 0xFF, 0xFF, 0xFF, 0xFF, 0xFF, 0xFF, 0xFF, //
    0, 0, 0, 0, 0, 0, 0, 0, 0,
];

/// The state of a list of at least 65,536 elements at `l`.
pub const LIST: &[u8] = &[
    0xFE, 0x43, 0x55, 0x45, 2, 0, 0, 0, 0, 0, 0, 0, 2, // two rows
    0, 0, 2, 0, // the root
    1, 0, 0, 1, 0x6C, 2, 3, // a list at the label l
    0, 1, 0, 0, 0, // of 65,536 elements at least
    0, 0, 0, 0, // which are alike from the first on
];

/// The state of such a list in the first version of state bytes.
pub const FIRST_LIST: &[u8] = &[
    0xFE, 0x43, 0x55, 0x45, 1, 0, 0, 0, 0, 0, 0, 0, 2, // two rows
    0, 0, 2, 0, // the root
    1, 0, 0, 1, 0x6C, 2, 3, // a list at the label l
    0, 1, 0, 0, 0,
];
