//! The last line of each outcome.
ghost use Rattle.std.specs.Prelude.{◌≡◌, ◌++◌, IfOk, codes, string_bytes, decimal};
ghost use Rattle.gcu_output.specs.Lines.{last_line, numbered_line as numbered, refused_line as refused, said as said_text, space, quoted as quoted_text, patch_why, fail_why, point_why, rules_why, stored_why, model_why, no_why, rule_name};

use crate::{Outcome, PointWhy};
use conf_check::RuleName;
use conf_store::StoredWhy;
use move_core::RulesWhy;
use patch_core::{FailWhy, PatchWhy};
use plan_texts::NoWhy;
use serde_json::Value;
use std::alloc::{AllocError, Global};
use yang_text::ModelWhy;

/// The line that ends the output with this outcome.
pub fn line(alloc: Global, outcome: &Outcome) -> Result<String, AllocError>
    ensures { IfOk result (λ s. string_bytes s ≡ last_line outcome.now) }
{
    match outcome {
        Outcome::Done => String::from_str(alloc, "done\n"),
        Outcome::PrintFault { .. } => Ok(String::new(alloc)),
        refusal => refused_line(alloc, refusal),
    }
}

/// The line of a refusal: its number, and what it says.
fn refused_line(alloc: Global, outcome: &Outcome) -> Result<String, AllocError>
    ensures { IfOk result (λ s. string_bytes s ≡ refused outcome.now) }
{
    let said = said(alloc, outcome)?;
    numbered_line(alloc, outcome.status(), said.as_str())
}

/// A line of a number and a text.
#[tactic(auto, using(std::proofs::Common::append_assoc))]
pub fn numbered_line(alloc: Global, status: u8, said: &str) -> Result<String, AllocError>
    ensures { IfOk result (λ s. string_bytes s ≡ numbered status said.now) }
{
    format!(in alloc; "refused {status} {said}\n")
}

/// What stands behind the number of a refusal.
fn said(alloc: Global, outcome: &Outcome) -> Result<String, AllocError>
    ensures { IfOk result (λ s. string_bytes s ≡ said_text outcome.now) }
{
    match outcome {
        Outcome::Done => String::from_str(alloc, "done"),
        Outcome::Memory => String::from_str(alloc, "memory"),
        Outcome::Usage => String::from_str(alloc, "usage"),
        Outcome::InputFault => String::from_str(alloc, "input fault"),
        Outcome::DiskFault { step } => format!(in alloc; "disk fault after {step}"),
        Outcome::PrintFault { step } => format!(in alloc; "print fault after {step}"),
        Outcome::ServiceFault { step, .. } => format!(in alloc; "service fault after {step}"),
        Outcome::NoInput { path } => {
            let path = quoted(alloc, path.as_str())?;
            format!(in alloc; "no input {path}")
        }
        Outcome::TooBig { path, limit } => {
            let path = quoted(alloc, path.as_str())?;
            format!(in alloc; "too big {path} {limit}")
        }
        Outcome::BadJson { path } => {
            let path = quoted(alloc, path.as_str())?;
            format!(in alloc; "bad json {path}")
        }
        Outcome::BadConfig { path, place } => {
            let path = quoted(alloc, path.as_str())?;
            let place = quoted(alloc, place.as_str())?;
            worded(alloc, "bad config ", path.as_str(), place.as_str())
        }
        Outcome::BadModels { file, line, why } => {
            let file = quoted(alloc, file.as_str())?;
            let why = model_why_name(*why);
            placed(alloc, "bad models ", file.as_str(), *line, why)
        }
        Outcome::BadRules { why } => {
            let why = rules_why_name(*why);
            format!(in alloc; "bad rules {why}")
        }
        Outcome::BadPatch { index, why } => {
            let why = patch_why_name(*why);
            numbered(alloc, "bad patch ", *index, why)
        }
        Outcome::PatchFailed { index, why } => {
            let why = fail_why_name(*why);
            numbered(alloc, "patch failed ", *index, why)
        }
        Outcome::TargetShape { place } => {
            let place = quoted(alloc, place.as_str())?;
            format!(in alloc; "target shape {place}")
        }
        Outcome::NoCheckpoint { name, why } => {
            let name = quoted(alloc, name.as_str())?;
            let why = point_why_name(*why);
            no_checkpoint(alloc, name.as_str(), why)
        }
        Outcome::CheckpointExists { name } => {
            let name = quoted(alloc, name.as_str())?;
            format!(in alloc; "checkpoint exists {name}")
        }
        Outcome::BadName { name } => {
            let name = quoted(alloc, name.as_str())?;
            format!(in alloc; "bad name {name}")
        }
        Outcome::CurrentInvalid { place, rule } => {
            let place = quoted(alloc, place.as_str())?;
            worded(
                alloc,
                "current invalid ",
                place.as_str(),
                rule_name_of(*rule),
            )
        }
        Outcome::TargetInvalid { place, rule } => {
            let place = quoted(alloc, place.as_str())?;
            worded(
                alloc,
                "target invalid ",
                place.as_str(),
                rule_name_of(*rule),
            )
        }
        Outcome::NoModel { table } => {
            let table = quoted(alloc, table.as_str())?;
            format!(in alloc; "no model {table}")
        }
        Outcome::EmptyTable { table } => {
            let table = quoted(alloc, table.as_str())?;
            format!(in alloc; "empty table {table}")
        }
        Outcome::Unorderable => String::from_str(alloc, "unorderable"),
        Outcome::Budget { n } => format!(in alloc; "budget {n}"),
        Outcome::BadStored { why } => {
            let why = stored_why_text(alloc, *why)?;
            format!(in alloc; "bad stored {why}")
        }
        Outcome::Interrupted => String::from_str(alloc, "interrupted"),
        Outcome::NoIntent => String::from_str(alloc, "no intent"),
        Outcome::BadIntent => String::from_str(alloc, "bad intent"),
        Outcome::SequenceFull => String::from_str(alloc, "sequence full"),
        Outcome::BadPlan { path, line } => {
            let path = quoted(alloc, path.as_str())?;
            format!(in alloc; "bad plan {path} {line}")
        }
        Outcome::PlanRejected { step, why } => {
            let why = no_why_name(*why);
            numbered(alloc, "no plan ", *step as usize, why)
        }
        Outcome::BadScope { index } => format!(in alloc; "bad scope {index}"),
        Outcome::ScopeRefused { scope, number } => {
            let scope = quoted(alloc, scope.as_str())?;
            format!(in alloc; "scope {scope} {number}")
        }
        Outcome::BadScript { line } => format!(in alloc; "bad script {line}"),
    }
}

/// A text that ends with a number and a word.
#[tactic(auto, using(std::proofs::Common::append_assoc))]
fn numbered(alloc: Global, start: &str, index: usize, why: &str) -> Result<String, AllocError>
    ensures { IfOk result (λ s. string_bytes s ≡ start.now ++ decimal index ++ space ++ why.now) }
{
    format!(in alloc; "{start}{index} {why}")
}

/// A text that ends with a place and a word.
#[tactic(auto, using(std::proofs::Common::append_assoc))]
fn worded(alloc: Global, start: &str, place: &str, word: &str) -> Result<String, AllocError>
    ensures { IfOk result (λ s. string_bytes s ≡ start.now ++ place.now ++ space ++ word.now) }
{
    format!(in alloc; "{start}{place} {word}")
}

/// A text that ends with a place, a number and a word.
#[tactic(auto, using(std::proofs::Common::append_assoc))]
fn placed(
    alloc: Global,
    start: &str,
    place: &str,
    number: u32,
    why: &str,
) -> Result<String, AllocError>
    ensures { IfOk result (λ s. string_bytes s
        ≡ start.now ++ place.now ++ space ++ decimal number ++ space ++ why.now) }
{
    format!(in alloc; "{start}{place} {number} {why}")
}

/// What stands behind the number where there is no such checkpoint.
#[tactic(auto, using(std::proofs::Common::append_assoc))]
fn no_checkpoint(alloc: Global, name: &str, why: &str) -> Result<String, AllocError>
    ensures { IfOk result (λ s.
        string_bytes s ≡ codes "no checkpoint " ++ name.now ++ space ++ why.now) }
{
    format!(in alloc; "no checkpoint {name} {why}")
}

/// A text as a compact JSON text.
pub fn quoted(alloc: Global, text: &str) -> Result<String, AllocError>
    ensures { IfOk result (λ s. string_bytes s ≡ quoted_text text.now) }
{
    Value::String(String::from_str(alloc, text)?).to_string(alloc)
}

fn rule_name_of(rule: RuleName) -> &'static str
    ensures { result.now ≡ rule_name rule }
{
    match rule {
        RuleName::KeyShape => "KeyShape",
        RuleName::KeyReference => "KeyReference",
        RuleName::UnknownField => "UnknownField",
        RuleName::WrongKind => "WrongKind",
        RuleName::BadValue => "BadValue",
        RuleName::DuplicateItem => "DuplicateItem",
        RuleName::MissingField => "MissingField",
        RuleName::Must => "Must",
    }
}

fn model_why_name(why: ModelWhy) -> &'static str
    ensures { result.now ≡ model_why why }
{
    match why {
        ModelWhy::NotUtf8 => "NotUtf8",
        ModelWhy::BadToken => "BadToken",
        ModelWhy::Unbalanced => "Unbalanced",
        ModelWhy::TooDeep => "TooDeep",
        ModelWhy::Unsupported => "Unsupported",
        ModelWhy::Repeated => "Repeated",
        ModelWhy::Missing => "Missing",
        ModelWhy::BadArgument => "BadArgument",
        ModelWhy::Duplicate => "Duplicate",
        ModelWhy::UnknownName => "UnknownName",
        ModelWhy::Circle => "Circle",
        ModelWhy::BadPattern => "BadPattern",
        ModelWhy::BadExpr => "BadExpr",
        ModelWhy::TooMany => "TooMany",
    }
}

fn patch_why_name(why: PatchWhy) -> &'static str
    ensures { result.now ≡ patch_why why }
{
    match why {
        PatchWhy::NotArray => "NotArray",
        PatchWhy::NotObject => "NotObject",
        PatchWhy::NoOp => "NoOp",
        PatchWhy::UnknownOp => "UnknownOp",
        PatchWhy::NoPath => "NoPath",
        PatchWhy::BadPath => "BadPath",
        PatchWhy::NoValue => "NoValue",
        PatchWhy::BadValue => "BadValue",
        PatchWhy::NoFrom => "NoFrom",
        PatchWhy::BadFrom => "BadFrom",
    }
}

fn fail_why_name(why: FailWhy) -> &'static str
    ensures { result.now ≡ fail_why why }
{
    match why {
        FailWhy::NoParent => "NoParent",
        FailWhy::BadIndex => "BadIndex",
        FailWhy::NoTarget => "NoTarget",
        FailWhy::RootRemove => "RootRemove",
        FailWhy::TestFailed => "TestFailed",
        FailWhy::IntoItself => "IntoItself",
        FailWhy::TooLarge => "TooLarge",
    }
}

fn rules_why_name(why: RulesWhy) -> &'static str
    ensures { result.now ≡ rules_why why }
{
    match why {
        RulesWhy::Top => "Top",
        RulesWhy::CreateOnly => "CreateOnly",
        RulesWhy::Required => "Required",
        RulesWhy::Services => "Services",
    }
}

fn point_why_name(why: PointWhy) -> &'static str
    ensures { result.now ≡ point_why why }
{
    match why {
        PointWhy::Absent => "Absent",
        PointWhy::NotConfig => "NotConfig",
    }
}

fn stored_why_text(alloc: Global, why: StoredWhy) -> Result<String, AllocError>
    ensures { IfOk result (λ s. string_bytes s ≡ stored_why why) }
{
    match why {
        StoredWhy::NoFile => String::from_str(alloc, "NoFile"),
        StoredWhy::BadJson => String::from_str(alloc, "BadJson"),
        StoredWhy::BadKind => String::from_str(alloc, "BadKind"),
        StoredWhy::BadShape => String::from_str(alloc, "BadShape"),
        StoredWhy::BadStep(n) => format!(in alloc; "BadStep {n}"),
    }
}

fn no_why_name(why: NoWhy) -> &'static str
    ensures { result.now ≡ no_why why }
{
    match why {
        NoWhy::NotDefined => "NotDefined",
        NoWhy::NotListed => "NotListed",
        NoWhy::Same => "Same",
        NoWhy::Rule1 => "Rule1",
        NoWhy::Rule2 => "Rule2",
        NoWhy::Rule3 => "Rule3",
        NoWhy::Rule4 => "Rule4",
        NoWhy::Rule5 => "Rule5",
        NoWhy::WrongEnd => "WrongEnd",
    }
}
