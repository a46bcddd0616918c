//! The goal of `gcu replace FILE`: the configuration that an input holds.
ghost use Rattle.std.specs.Prelude.{IfErr};
ghost use Rattle.host_core.specs.Answers.{Gives};
ghost use Rattle.conf_doc.specs.Reading.{reading};
ghost use Rattle.conf_doc.specs.Shaping.{shaping};
ghost use Rattle.conf_doc.specs.Trees.{document};
ghost use Rattle.gcu_inputs.specs.Preparing.{Finds, Refuses, RefusesAlways, refusal};
ghost use Rattle.gcu_inputs.specs.Reads.{ReadsInputs};
ghost use Rattle.gcu_requests.specs.FileAsked.{config_answer, config_found, document_answer, file_asked};

use conf_doc::{Config, ReadError, ShapeError, Tree, config_of_tree, read_tree};
use gcu_inputs::input_bytes;
use gcu_output::Outcome;
use host_core::{Host, Txt};
use std::alloc::Global;

/// How many bytes the file of a configuration may have.
const FILE_LIMIT: u64 = 4_194_304;

/// The configuration that the input at a path holds.
pub(crate) fn file_goal<H: Host>(alloc: Global, path: &Txt, host: &mut H) -> Result<Config, Outcome>
    ensures answer { Finds (H.told host.old) (λ c. c) result (file_asked path.now) }
    ensures reads { ReadsInputs H.told H.counts H.moment H.left_since H.goes_on host.old host.new }
    ensures cause { IfErr result (Refuses (H.counts host.old) (H.counts host.new)) }
{
    let bytes = input_bytes(alloc, path, FILE_LIMIT, host)?;
    find_config(alloc, path, bytes.items())
}

/// The configuration that the bytes hold which were found at a path.
fn find_config(alloc: Global, path: &Txt, bytes: &[u8]) -> Result<Config, Outcome>
    ensures answer { Gives (λ c. c) refusal result (config_found path.now bytes.now) }
    ensures cause { IfErr result RefusesAlways }
{
    let tree = find_tree(alloc, path, bytes)?;
    shape_tree(alloc, path, tree)
}

/// The tree that they hold.
fn find_tree(alloc: Global, path: &Txt, bytes: &[u8]) -> Result<Tree, Outcome>
    ensures answer { Gives document refusal result (document_answer path.now (reading bytes.now)) }
    ensures cause { IfErr result RefusesAlways }
{
    match read_tree(alloc, bytes) {
        Ok(tree) => Ok(tree),
        Err(ReadError::BadJson) => Err(Outcome::BadJson {
            path: path.copy(alloc)?,
        }),
        Err(ReadError::BadKind { place }) => Err(Outcome::BadConfig {
            path: path.copy(alloc)?,
            place,
        }),
        Err(ReadError::Memory) => Err(Outcome::Memory),
    }
}

/// The configuration of a tree that was found at a path.
fn shape_tree(alloc: Global, path: &Txt, tree: Tree) -> Result<Config, Outcome>
    ensures answer { Gives (λ c. c) refusal result
        (config_answer path.now (shaping (document tree))) }
    ensures cause { IfErr result RefusesAlways }
{
    match config_of_tree(alloc, tree) {
        Ok(config) => Ok(config),
        Err(ShapeError::Shape { place }) => Err(Outcome::BadConfig {
            path: path.copy(alloc)?,
            place,
        }),
        Err(ShapeError::Memory) => Err(Outcome::Memory),
    }
}
