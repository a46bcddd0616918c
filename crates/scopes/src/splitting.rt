//! A patch over several scopes, split into one for each.
ghost use Rattle.std.specs.Prelude.{◌≡◌, [], ◌++◌, drop, map, filter, not, true, IfOk, MatchOption, OnOk};
ghost use Rattle.std.specs.List.{position};
ghost use Rattle.host_core.specs.Answers.{Gives};
ghost use Rattle.patch_core.specs.Operation.{operation_of, operations};
ghost use Rattle.scopes.specs.Splitting.{begins_with as is_first, below, has_scope as is_scoped, is_under as are_under, part_if_any, part_of, parts, path_in, split, split_fault};

use crate::{Scope, SplitError};
use host_core::{Memory, Names, Sequence, Txt};
use patch_core::{Op, Patch, Pointer};
use std::alloc::Global;

/// How many ASICs a switch may have.
const MOST_ASICS: usize = 256;

/// The operations of a patch in one scope, their pointers without it.
#[derive(Drop)]
pub struct Scoped {
    pub scope: Scope,
    pub patch: Patch,
}

/// The parts of a patch whose paths begin with scopes: for each scope that it names its operations, in
/// order. The scopes are in order, `localhost` first and then the ASICs by number.
pub fn split(alloc: Global, patch: &Patch) -> Result<Vec<Scoped>, SplitError>
    ensures { Gives (λ v. map part_of v.items) split_fault result (split (operations patch.now)) }
{
    let ops = patch.ops.items();
    match first_outside(ops) {
        Some(index) => Err(SplitError::BadScope { index }),
        None => Ok(parts_of(alloc, ops)?),
    }
}

/// The first operation that is in no scope.
fn first_outside(ops: &[Op]) -> Option<usize>
    ensures { result ≡ position (λ op. not (is_scoped (operation_of op))) ops.now }
{
    ops.iter().position(|op| !has_scope(op))
}

// ---- one operation

/// Whether an operation is in a scope.
fn has_scope(op: &Op) -> bool
    ensures { result ≡ is_scoped (operation_of op.now) }
{
    match first_token(path_of(op)) {
        Some(first) => is_in_scope(first, op),
        None => false,
    }
}

/// Whether an operation is in the scope of that name, which its path begins with.
fn is_in_scope(first: &Txt, op: &Op) -> bool
    requires { is_first first.now (path_in (operation_of op.now)) ≡ true }
    ensures { result ≡ is_scoped (operation_of op.now) }
{
    match Scope::named(first.as_str()) {
        Some(scope) => is_under(scope.short_name().as_str(), op),
        None => false,
    }
}

/// The first token of a pointer.
fn first_token(pointer: &Pointer) -> Option<&Txt>
    ensures { MatchOption result (pointer.now.tokens ≡ [])
        (λ first. is_first first.now pointer.now.tokens ≡ true) }
{
    match pointer.tokens.items() {
        [] => None,
        [first, ..] => Some(first),
    }
}

/// The path of an operation.
fn path_of(op: &Op) -> &Pointer
    ensures { result.now.tokens ≡ path_in (operation_of op.now) }
{
    match op {
        Op::Add(path, _)
        | Op::Remove(path)
        | Op::Replace(path, _)
        | Op::Move { path, .. }
        | Op::Copy { path, .. }
        | Op::Test(path, _) => path,
    }
}

/// Whether each pointer of an operation begins with a name.
fn is_under(name: &str, op: &Op) -> bool
    ensures { result ≡ are_under name.now (operation_of op.now) }
{
    match op {
        Op::Add(path, _) | Op::Remove(path) | Op::Replace(path, _) | Op::Test(path, _) => {
            begins_with(name, path)
        }
        Op::Move { from, path } | Op::Copy { from, path } => {
            begins_with(name, path) && begins_with(name, from)
        }
    }
}

/// Whether a name is the first token of a pointer.
fn begins_with(name: &str, pointer: &Pointer) -> bool
    ensures { result ≡ is_first name.now pointer.now.tokens }
{
    match pointer.tokens.items() {
        [] => false,
        [first, ..] => first.as_str() == name,
    }
}

/// The operation below its scope: each pointer without its first token.
fn op_below(alloc: Global, op: &Op) -> Result<Op, Memory>
    ensures { IfOk result (λ o. operation_of o ≡ below (operation_of op.now)) }
{
    Ok(match op {
        Op::Add(path, value) => Op::Add(pointer_below(alloc, path)?, value.copy(alloc)?),
        Op::Remove(path) => Op::Remove(pointer_below(alloc, path)?),
        Op::Replace(path, value) => Op::Replace(pointer_below(alloc, path)?, value.copy(alloc)?),
        Op::Move { from, path } => Op::Move {
            from: pointer_below(alloc, from)?,
            path: pointer_below(alloc, path)?,
        },
        Op::Copy { from, path } => Op::Copy {
            from: pointer_below(alloc, from)?,
            path: pointer_below(alloc, path)?,
        },
        Op::Test(path, value) => Op::Test(pointer_below(alloc, path)?, value.copy(alloc)?),
    })
}

/// A pointer without its first token.
fn pointer_below(alloc: Global, pointer: &Pointer) -> Result<Pointer, Memory>
    ensures { IfOk result (λ p. p.tokens ≡ drop 1 pointer.now.tokens) }
{
    let tokens = match pointer.tokens.items() {
        [] => Names::new(alloc),
        [_, rest @ ..] => copy_tokens(alloc, rest)?,
    };
    Ok(Pointer { tokens })
}

/// The same tokens.
fn copy_tokens(alloc: Global, tokens: &[Txt]) -> Result<Names, Memory>
    ensures { IfOk result (λ ts. ts ≡ tokens.now) }
{
    let mut copies = Names::new(alloc);
    for token in tokens {
        let copy = token.copy(alloc)?;
        copies.push(copy)?;
    }
    Ok(copies)
}

// ---- all operations

/// The operations, scope by scope.
fn parts_of(alloc: Global, ops: &[Op]) -> Result<Vec<Scoped>, Memory>
    ensures { IfOk result (λ v. map part_of v.items ≡ parts (map operation_of ops.now)) }
{
    let mut all = Vec::new(alloc);
    add_part(alloc, &mut all, ops, Scope::Localhost)?;
    for number in 0..MOST_ASICS {
        add_part(alloc, &mut all, ops, Scope::Asic(number as u8))?;
    }
    Ok(all)
}

/// Adds the operations in a scope, where there are some.
fn add_part(alloc: Global, all: &mut Vec<Scoped>, ops: &[Op], scope: Scope) -> Result<(), Memory>
    ensures { OnOk result (map part_of all.new.items
        ≡ map part_of all.old.items ++ part_if_any scope (map operation_of ops.now)) }
{
    let name = scope.short_name();
    let ops = ops_below(alloc, ops, name.as_str())?;
    if !ops.is_empty() {
        all.push(Scoped {
            scope,
            patch: Patch { ops },
        })?;
    }
    Ok(())
}

/// The operations in the scope of that name, in order, below it.
fn ops_below(alloc: Global, ops: &[Op], name: &str) -> Result<Sequence<Op>, Memory>
    ensures { IfOk result (λ all. map operation_of all
        ≡ map below (filter (are_under name.now) (map operation_of ops.now))) }
{
    let mut all = Sequence::new(alloc);
    for op in ops {
        if is_under(name, op) {
            let below = op_below(alloc, op)?;
            all.push(below)?;
        }
    }
    Ok(all)
}
