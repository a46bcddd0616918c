//! What a command reads of its host: its inputs, what is stored, and the file of a change under way; each as it
//! is read, or the first refusal.
#![tactic(auto)]

mod inputs;
mod intent;
mod model_files;
mod model_list;
mod models;
mod patch_input;
mod rules;
mod stored;

pub use inputs::input_bytes;
pub use intent::{goal_held, read_intent, read_interrupted, test_interrupted, test_uninterrupted};
pub use model_list::read_list;
pub use models::input_models;
pub use patch_input::input_patch;
pub use rules::input_ctx;
pub use stored::{read_config, read_folder};
