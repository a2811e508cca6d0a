// Images of level 1, for runs that are drawn and for runs that are worked out.

/// An image that waits for ever: `idle.hex` of the examples (docs/FORMATS.md, "Images").
pub const IDLE: [u16; 2] = [0xf000, 0xd1fe];

/// An image that sets both outputs to 1000, and waits for ever: `full.hex` of the examples (docs/FORMATS.md,
/// "Images").
pub const FULL: [u16; 8] = [
    0x1210, 0x2210, 0x1407, 0x2468, 0xc440, 0xc441, 0xf000, 0xd1fe,
];
