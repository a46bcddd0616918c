//! What the rows of a table ask.
use crate::kits::is_situation_as_said;
use crate::ranks::is_order_as_said;
use crate::rechecks::is_recheck_as_said;
use example_rows::{Fail, Table};
use serde_json::Value;

/// What a row asks. The function that asks it says what the row has.
#[derive(Clone, Copy)]
pub enum Asked {
    Order,
    Boxes,
    Recheck,
    Count,
}

impl<R: AllocGlobal> Table<R> for Asked {
    fn is_as_said(&self, rt: &R, inputs: &Value, row: &Value) -> Result<bool, Fail> {
        let alloc = rt.alloc();
        match self {
            Asked::Order => is_order_as_said(alloc, row),
            Asked::Recheck => is_recheck_as_said(alloc, inputs, row),
            Asked::Boxes | Asked::Count => is_situation_as_said(alloc, inputs, row, *self),
        }
    }
}
