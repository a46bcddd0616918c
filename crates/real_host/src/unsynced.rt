//! Which files of the folder may have been written and not synced.
ghost use Rattle.std.specs.Prelude.{◌≡◌, ◌≢◌, ◌↔◌, ◌≤◌, IsTrue, length};
ghost use Rattle.host_core.specs.Names.{longest_file_name};
ghost use Rattle.real_host.specs.Unsynced.{IsOnly};

use arrayvec::ArrayString;

/// How many bytes a name of a file may have.
const LONGEST_FILE_NAME: usize = 96;

/// Which files of the folder may have been written and not synced.
#[derive(Drop)]
pub(crate) enum Unsynced {
    /// Those that an earlier command left, which the names of the folder tell, and those that this one wrote.
    Unlisted,
    /// The one of that name.
    Only(ArrayString<LONGEST_FILE_NAME>),
    /// None.
    Nothing,
}

impl Unsynced {
    /// A file is written.
    pub(crate) fn add(&mut self, name: &str)
        requires { length name.now ≤ longest_file_name }
        ensures first { self.old ≡ Unsynced.Nothing → IsOnly name.now self.new }
        ensures more { self.old ≢ Unsynced.Nothing → self.new ≡ Unsynced.Unlisted }
    {
        *self = match self {
            Unsynced::Nothing => {
                let mut file = ArrayString::new();
                file.push_str(name);
                Unsynced::Only(file)
            }
            Unsynced::Unlisted | Unsynced::Only(_) => Unsynced::Unlisted,
        };
    }

    /// A file is synced.
    pub(crate) fn remove(&mut self, name: &str)
        ensures same { IsOnly name.now self.old → self.new ≡ Unsynced.Nothing }
        ensures other { ¬ IsOnly name.now self.old → self.new ≡ self.old }
    {
        if self.is_only(name) {
            *self = Unsynced::Nothing;
        }
    }

    /// Whether it is the one of that name alone.
    fn is_only(&self, name: &str) -> bool
        ensures { IsTrue result ↔ IsOnly name.now self.now }
    {
        match self {
            Unsynced::Only(file) => file.as_str() == name,
            Unsynced::Unlisted | Unsynced::Nothing => false,
        }
    }
}
