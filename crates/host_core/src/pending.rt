//! What a crash may still undo in a host in memory, and how to undo it.
ghost use Rattle.std.specs.Prelude.{◌≡◌, MatchOption, IsTrue};

use crate::Txt;
use crate::short_names::ShortName;

/// What is pending.
#[derive(Drop)]
pub(crate) enum Pending {
    /// Nothing.
    Settled,
    /// The bytes of the file of that name.
    Dirty(ShortName),
    /// The last change of the folder's names.
    Listing(Undo),
}

/// How the files were before the last change of the folder's names.
#[derive(Drop)]
pub(crate) enum Undo {
    /// As they are.
    Same,
    /// With a file that was removed.
    Removed {
        name: Txt,
        bytes: Vec<u8>,
    },
    /// With a file under another name, at which another file stood or none.
    Renamed {
        from: Txt,
        to: Txt,
        replaced: Option<Vec<u8>>,
    },
}

/// What led from an earlier state to the one after it.
#[derive(Drop)]
pub(crate) enum Step {
    /// A file was written, which had this content before or was not there.
    Write {
        pending: Pending,
        name: Txt,
        content: Option<Vec<u8>>,
    },
    /// What was pending lasts.
    Settle {
        pending: Pending,
    },
    /// The folder's names changed, where nothing was pending. That change is pending since.
    List,
    /// The output grew, which was so long. Without `pending` names were pending, and are since.
    Print {
        pending: Option<Pending>,
        len: usize,
    },
    /// A restart was requested. Without `pending` names were pending, and are since.
    Restart {
        pending: Option<Pending>,
    },
}

impl Pending {
    ghost use Rattle.host_core.specs.Steps.{is_listing};

    /// The same, but for names.
    pub(crate) fn copy_unless_listing(&self) -> Option<Pending>
        ensures { MatchOption result (IsTrue (is_listing self.now)) (λ p. p ≡ self.now) }
    {
        match self {
            Pending::Settled => Some(Pending::Settled),
            Pending::Dirty(name) => Some(Pending::Dirty(name.copy())),
            Pending::Listing(_) => None,
        }
    }
}
