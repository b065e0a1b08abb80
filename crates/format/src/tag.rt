// The bytes of the format: tags, by what they begin where a tag is wanted, and the base of numbers.

/// Ends a list.
pub const END: u8 = 0x00;

// expressions
pub const WORD: u8 = 0x01;

pub const VAR: u8 = 0x02;

pub const LOAD: u8 = 0x03;

pub const CHOICE: u8 = 0x04;

// expressions with an operator, all from ADD to EQUAL
pub const ADD: u8 = 0x10;

pub const SUB: u8 = 0x11;

pub const MUL: u8 = 0x12;

pub const MUL_HIGH: u8 = 0x13;

pub const DIV: u8 = 0x14;

pub const REM: u8 = 0x15;

pub const AND: u8 = 0x16;

pub const OR: u8 = 0x17;

pub const XOR: u8 = 0x18;

pub const SHIFT_RIGHT: u8 = 0x19;

pub const SHIFT_LEFT: u8 = 0x1a;

pub const SHIFT_SIGNED: u8 = 0x1b;

pub const LESS_SIGNED: u8 = 0x1c;

pub const LESS: u8 = 0x1d;

pub const EQUAL: u8 = 0x1e;

// commands
pub const SET: u8 = 0x20;

pub const STORE: u8 = 0x21;

pub const IF: u8 = 0x22;

pub const WHILE: u8 = 0x23;

pub const CALL: u8 = 0x24;

pub const FROM: u8 = 0x25;

pub const TO: u8 = 0x26;

/// A function, where the next is expected.
pub const FUNCTION: u8 = 0x30;

/// The base of numbers: a byte below it is a number's last, and the others have more of the number after them.
pub const BASE: u8 = 0x80;
