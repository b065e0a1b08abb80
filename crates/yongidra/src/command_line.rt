// What the command line asks for.
ghost use Rattle.std.specs.Prelude.{◌≡◌, None, false, map, string_bytes};
ghost use Rattle.yongidra.specs.CommandLine.{asked, wanted};

use thiserror::Error;

#[derive(Clone, Copy, PartialEq, Eq, Debug)]
pub enum Request<'a> {
    Help,
    Version,
    // the file of the program and, if one is named, the file for the image
    Compile {
        program: &'a str,
        image: Option<&'a str>,
    },
}

#[derive(Clone, Copy, PartialEq, Eq, Debug, Error)]
pub enum Mistake {
    #[error("-o asks for the name of a file")]
    NoImage,
    #[error("there is no such option")]
    NoSuchOption,
    #[error("there is more than one file")]
    ManyFiles,
    #[error("there is no file")]
    NoFile,
}

// The arguments after the program's own name, where the first that is a mistake, or asks for help or the version, decides.
pub fn parse<'a>(args: &'a [String]) -> Result<Request<'a>, Mistake>
    ensures { wanted result ≡ asked false None None (map string_bytes args.now) }
{
    let mut program = None;
    let mut image = None;
    let mut rest = args.iter();
    while let Some(arg) = rest.next() {
        match arg.as_str() {
            "--help" | "-h" => return Ok(Request::Help),
            "--version" | "-V" => return Ok(Request::Version),
            "-o" => image = Some(rest.next().ok_or(Mistake::NoImage)?.as_str()),
            option if option.starts_with("-") => return Err(Mistake::NoSuchOption),
            _ if program.is_some() => return Err(Mistake::ManyFiles),
            name => program = Some(name),
        }
    }
    let program = program.ok_or(Mistake::NoFile)?;
    Ok(Request::Compile { program, image })
}
