//! The models and the rules that rows share.
ghost use Rattle.std.specs.Prelude.{IfOk, OnOk};
ghost use Rattle.move_examples.specs.Situations.{AreSmall, IsSmall};

use example_rows::{Fail, items_at, text_at, text_of, value_at, written_at};
use host_core::{Sequence, Txt};
use serde_json::Value;
use std::alloc::Global;
use yang_model::{ModelError, Models, compile};
use yang_text::{Statements, TextError, parse};

/// How many files models may have.
const MOST_FILES: usize = 256;

/// How many bytes a file may have.
const MODEL_LIMIT: usize = 1_048_576;

/// Statements, each text with its name.
type Texts = Sequence<(Txt, Statements)>;

/// The models that a row names: those of the texts that the list of that name has.
pub fn models_at(alloc: Global, inputs: &Value, row: &Value) -> Result<Models, Fail> {
    let lists = value_at(inputs, "models")?;
    let names = items_at(lists, text_at(row, "models")?)?;
    let texts = value_at(inputs, "texts")?;
    let mut read = Sequence::new(alloc);
    let models = read_models(alloc, texts, &mut read, names);
    drop(read);
    models
}

/// The models of the texts of some names, whose statements are kept beside.
fn read_models(
    alloc: Global,
    texts: &Value,
    read: &mut Texts,
    names: &[Value],
) -> Result<Models, Fail>
    requires { AreSmall read.old }
{
    read_texts(alloc, texts, read, names)?;
    models_of(alloc, read)
}

/// The models of some texts.
fn models_of(alloc: Global, texts: &Texts) -> Result<Models, Fail>
    requires { AreSmall texts.now }
{
    if texts.len() > MOST_FILES {
        return Err(Fail::Row);
    }
    match compile(alloc, texts.items()) {
        Ok(models) => Ok(models),
        Err(ModelError::Fault { .. }) => Err(Fail::Row),
        Err(ModelError::Memory) => Err(Fail::Memory),
    }
}

/// Adds the statements of the texts of some names.
fn read_texts(alloc: Global, texts: &Value, read: &mut Texts, names: &[Value]) -> Result<(), Fail>
    requires { AreSmall read.old }
    ensures { OnOk result (AreSmall read.new) }
{
    match names {
        [] => Ok(()),
        [name, rest @ ..] => {
            push_text(alloc, texts, read, name)?;
            read_texts(alloc, texts, read, rest)
        }
    }
}

/// Adds the statements of the text of a name.
fn push_text(alloc: Global, texts: &Value, read: &mut Texts, name: &Value) -> Result<(), Fail>
    requires { AreSmall read.old }
    ensures { OnOk result (AreSmall read.new) }
{
    let name = text_of(name)?;
    let key = Txt::new(alloc, name)?;
    let statements = read_text(alloc, texts, name)?;
    read.push((key, statements))?;
    Ok(())
}

/// The statements of the text of a name.
fn read_text(alloc: Global, texts: &Value, name: &str) -> Result<Statements, Fail>
    ensures { IfOk result IsSmall }
{
    let bytes = written_at(alloc, texts, name)?;
    if bytes.len() > MODEL_LIMIT {
        return Err(Fail::Row);
    }
    match parse(alloc, &bytes) {
        Ok(statements) => Ok(statements),
        Err(TextError::Fault { .. }) => Err(Fail::Row),
        Err(TextError::Memory) => Err(Fail::Memory),
    }
}
