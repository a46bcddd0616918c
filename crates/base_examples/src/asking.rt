//! What the rows of a table ask.
use crate::acts::does_as_said;
use crate::expressions::is_expression_as_said;
use crate::reads::is_reading_as_said;
use crate::real_calls::are_real_calls_as_said;
use crate::small_trees::is_truth_as_said;
use crate::texts::is_text_as_said;
use crate::word_lists::are_words_as_said;
use example_rows::{Fail, Table};
use serde_json::Value;
use std::env::Env;
use std::rt::Files;

/// What a row asks. The function that asks it says what the row has.
#[derive(Clone, Copy)]
pub enum Asked {
    Text,
    Expression,
    Truth,
    Act,
    Read,
    Words,
    RealCalls,
}

impl<R: Files + Env + AllocGlobal> Table<R> for Asked {
    fn is_as_said(&self, rt: &R, inputs: &Value, row: &Value) -> Result<bool, Fail> {
        let alloc = rt.alloc();
        match self {
            Asked::Text => is_text_as_said(alloc, row),
            Asked::Expression => is_expression_as_said(alloc, row),
            Asked::Truth => is_truth_as_said(alloc, inputs, row),
            Asked::Act => does_as_said(alloc, row),
            Asked::Read => is_reading_as_said(alloc, row),
            Asked::Words => are_words_as_said(alloc, row),
            Asked::RealCalls => are_real_calls_as_said(rt, alloc, row),
        }
    }
}
