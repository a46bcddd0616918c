//! What a folder was found to hold.
use conf_doc::Config;
use host_core::Names;

/// A folder's stored configuration, and the files that a fold takes away.
#[derive(Drop)]
pub struct Stored {
    pub config: Config,
    /// The names of all step files, in order.
    pub steps: Names,
    /// Whether `config_db.folded` is there.
    pub folded: bool,
}
