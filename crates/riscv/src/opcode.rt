// Opcodes, the lowest seven bits of each word.

pub const LOAD: u32 = 0x03;

pub const IMMEDIATE: u32 = 0x13;

pub const AUIPC: u32 = 0x17;

pub const STORE: u32 = 0x23;

pub const REGISTER: u32 = 0x33;

pub const LUI: u32 = 0x37;

pub const BRANCH: u32 = 0x63;

pub const JALR: u32 = 0x67;

pub const JAL: u32 = 0x6f;
