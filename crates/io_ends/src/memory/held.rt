//! A file in memory.

ghost use Rattle.std.specs.Prelude.{◌≡◌};
ghost use Rattle.io_ends.specs.Known.{contents_later};

/// A path, and the contents that its reads will find, in order; the last one stays.
#[derive(Debug, Drop)]
pub struct HeldFile {
    pub path: String,
    pub contents: Vec<Vec<u8>>,
}

impl HeldFile {
    ghost use Rattle.io_ends.specs.Memory.{contents_of};

    /// Takes the first content away, unless it is the last.
    pub fn take_content(&mut self)
        ensures path { self.new.path ≡ self.old.path }
        ensures contents { contents_of self.new ≡ contents_later (contents_of self.old) }
    {
        if self.contents.len() > 1 {
            self.contents.remove(0);
        }
    }
}
