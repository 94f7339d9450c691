//! A law of pipeline files. Its function does nothing: its contract is the law.
ghost use Rattle.current_cli.specs.Files.{EachIsOneFile};

/// Each file is found to be exactly one thing: missing, refused with a line, or sound.
pub fn files_are_one_thing()
    ensures { EachIsOneFile }
{}
