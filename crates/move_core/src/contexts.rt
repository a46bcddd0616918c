//! By what moves are judged: the models and the rules file.
use crate::Settings;
use yang_model::Models;

/// The models of the tables, and what the rules file says.
#[derive(Drop)]
pub struct Ctx {
    pub models: Models,
    pub settings: Settings,
}
