// What a file is opened for.
ghost use Rattle.std.specs.Prelude.{◌≡◌};
ghost use Rattle.ktm_os.specs.File.{options_of};

use std::fs::OpenOptions;

/// What a file is opened for.
#[derive(Clone, Copy)]
pub enum Access {
    /// For reading alone.
    Read,
    /// For reading and writing: it is made where there is none, never emptied, and locked while it is open.
    Change,
}

impl Access {
    pub fn options(self) -> OpenOptions
        ensures { result ≡ options_of self }
    {
        let mut options = OpenOptions::new();
        options.read(true);
        match self {
            Access::Read => {}
            Access::Change => {
                options.write(true).create(true);
            }
        }
        options
    }
}
