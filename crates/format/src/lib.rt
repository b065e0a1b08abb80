// The bytes of programs: their tokens, and a scan that says where bytes cease to be a program.
#![tactic(auto)]

pub mod expected;
pub mod scan;
pub mod tag;
pub mod token;
pub mod tokens;

ghost use Rattle.format.specs.Format.{PlaceIsRight, WrittenOnce, format};
ghost use Rattle.model.specs.Promise.{ReadsBack};

/// The bytes of every program are read back as that program.
pub fn reads_back()
    ensures { ReadsBack format }
{}

/// Bytes that are read as a program are that program's bytes.
pub fn written_once()
    ensures { WrittenOnce }
{}

/// Where bytes are said to cease to be a program, they do.
pub fn place_is_right()
    ensures { PlaceIsRight }
{}
