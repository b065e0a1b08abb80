// Lent code, and how many words have come to it: instructions are written as far as there is room, and counted in any case.
ghost use Rattle.std.specs.Prelude.{◌≡◌, ◌<◌, ◌≤◌, ◌+◌, ◌-◌, ◌*◌, ◌%◌, min, [], ◌∷◌, length, slice_set};
ghost use Rattle.codegen.specs.Coding.{AllFit, Came, Same, Opens, Tests, Lands, JumpsBack};
ghost use Rattle.codegen.specs.Emission.{limit, Patched};
ghost use Rattle.codegen.specs.Expressions.{jump_on};
ghost use Rattle.codegen.specs.Frame.{back};
ghost use Rattle.riscv.specs.Encoding.{Fits, truncated, encode as encoded};

use crate::registers::{VALUE, WORD, ZERO};
use riscv::encoding::encode;
use riscv::instruction::{Condition, Instruction};

/// Jumps have 21 bits: one back is taken from this.
pub const JUMPS: u32 = 1 << 21;

// Words that a jump goes, in bytes; in code that is not too long every jump reaches.
fn in_bytes(words: usize) -> u32
    ensures { result ≡ 4 * (words % 524288) }
{
    WORD * (words % (JUMPS / WORD) as usize) as u32
}

// A jump from the start of a part of the code on by so many words.
fn jump_on(part: &mut [u32], words: usize)
    requires { 0 < length part.old }
    ensures { words ≤ limit → part.new ≡ slice_set part.old 0 (encoded (jump_on words)) }
{
    part[0] = encode(Instruction::Jal(ZERO, in_bytes(words)));
}

/// The jump at `at`, which was left open, goes to `to`.
pub fn patch(words: &mut [u32], at: usize, to: usize)
    ensures { Patched at to words.old words.new }
{
    if at < words.len() && at < to {
        jump_on(&mut words[at..], to - at);
    }
}

/// The field of a jump from `at` back to `start`.
pub fn back_to(start: usize, at: usize) -> u32
    ensures far { start < at → at - start ≤ limit → result ≡ back (4 * (at - start)) }
    ensures fits { (result < 2097152) × (result % 2 ≡ 0) }
{
    (JUMPS - in_bytes(at.saturating_sub(start))) % JUMPS
}

/// A jump that was left open. It can't be let go: it has to land.
pub struct OpenJump {
    at: usize,
}

#[derive(Drop)]
pub struct Code<'a> {
    words: &'a mut [u32],
    len: usize,
}

impl<'a> Code<'a> {
    pub fn new(words: &'a mut [u32]) -> Code<'a>
        ensures same { result.words.ghost_name ≡ words.entry.ghost_name }
        ensures words { result.words.now ≡ words.old }
        ensures len { result.len ≡ 0 }
    {
        Code { words, len: 0 }
    }

    /// Code to which `len` words have come already, so that the next stands at that place, or is counted only.
    pub fn at(words: &'a mut [u32], len: usize) -> Code<'a>
        ensures same { result.words.ghost_name ≡ words.entry.ghost_name }
        ensures words { result.words.now ≡ words.old }
        ensures len { result.len ≡ len }
    {
        Code { words, len }
    }

    /// How many words have come to it.
    pub fn len(&self) -> usize
        ensures { result ≡ self.now.len }
    {
        self.len
    }

    /// One instruction more, each field with as many bits as it has room for.
    pub fn write(&mut self, i: Instruction)
        ensures writes { self.new.words.now ≡ slice_set self.old.words.now self.old.len (encoded (truncated i)) }
        ensures counts { self.new.len ≡ min (self.old.len + 1) 18446744073709551615 }
        ensures came { Fits i → Came (i ∷ []) self.old self.new }
        ensures same { Same self.old self.new }
    {
        if self.len >= self.words.len() {
            self.len = self.len.saturating_add(1);
            return;
        }
        self.words[self.len] = encode(i);
        self.len += 1;
    }

    /// One instruction more, which fits.
    pub fn put(&mut self, i: Instruction)
        requires { Fits i }
        ensures came { Came (i ∷ []) self.old self.new }
        ensures same { Same self.old self.new }
    {
        self.write(i);
    }

    /// Instructions, one after the other.
    pub fn put_all(&mut self, is: &[Instruction])
        requires { AllFit is.now }
        ensures came { Came is.now self.old self.new }
        ensures same { Same self.old self.new }
    {
        for i in is {
            self.put(*i);
        }
    }

    /// A jump on, to where it is still to land.
    pub fn jump(&mut self) -> OpenJump
        ensures opens { Opens result self.old self.new }
        ensures same { Same self.old self.new }
    {
        let at = self.len;
        self.put(Instruction::Jal(ZERO, 0));
        OpenJump { at }
    }

    /// A jump on where the value is 0, to where it is still to land.
    pub fn jump_if_zero(&mut self) -> OpenJump
        ensures tests { Tests result self.old self.new }
        ensures same { Same self.old self.new }
    {
        self.put(Instruction::Branch(Condition::Ne, VALUE, ZERO, 2 * WORD));
        self.jump()
    }

    /// A jump that was left open lands here.
    pub fn land(&mut self, jump: OpenJump)
        ensures { Lands jump self.old self.new }
    {
        let OpenJump { at } = jump;
        patch(self.words, at, self.len);
    }

    /// A jump back to `start`.
    pub fn jump_back(&mut self, start: usize)
        ensures back { JumpsBack start self.old self.new }
        ensures same { Same self.old self.new }
    {
        self.put(Instruction::Jal(ZERO, back_to(start, self.len)));
    }
}
