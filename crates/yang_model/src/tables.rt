//! The models of tables, from the statements of the files.
ghost use Rattle.std.specs.Prelude.{◌≡◌, ◌<◌, ◌^◌, ◌++◌, All, length, map, option_map, slice_get, IfOk, OnOk};
ghost use Rattle.std.specs.List.{flat_map};
ghost use Rattle.std.specs.Option.{option_to_list};
ghost use Rattle.yang_text.specs.Declarations.{weight};
ghost use Rattle.yang_must.specs.Spots.{containers_of, tables_of, shapes_of};
ghost use Rattle.yang_model.specs.Answers.{HaveFiles};
ghost use Rattle.yang_model.specs.ModelSets.{ModelSet};
ghost use Rattle.yang_model.specs.Readers.{Gives};
ghost use Rattle.yang_model.specs.Leaves.{stored, name_of};
ghost use Rattle.yang_model.specs.Shapes.{shape_model, table_of, tables_in, models_of};
ghost use Rattle.yang_model.specs.Sizes.{IsSmall};
ghost use Rattle.yang_model.specs.TableModels.{table_model};

use crate::fields::{fields, key_leaves, name_of, shape_keys};
use crate::models::{Models, TableShapes};
use crate::musts::musts;
use crate::shapes::{IndexedShape, Shape};
use host_core::{Memory, Names as NameList, Sequence};
use std::alloc::Global;
use yang_must::{ContainerNode, ModelTree, ShapeNode, TableNode};
use yang_scope::Names;

/// A list or a fixed container of a table.
fn shape_model<'t, 'a>(
    alloc: Global,
    names: &Names<'a>,
    tree: &ModelTree<'a>,
    container: &'t ContainerNode<'a>,
    table: &'t TableNode<'a>,
    shape: &'t ShapeNode<'a>,
) -> Result<Shape, Memory>
    requires { tree.now ≡ names.now }
    ensures { IfOk result (λ s. Gives s (λ readers.
        shape_model stored names.now readers container.now table.now shape.now)) }
{
    let statement = shape.statement();
    let number = container.number();
    let keys = shape_keys(alloc, statement)?;
    let name = name_of(alloc, statement)?;
    let leaves = key_leaves(alloc, names, number, statement, keys.as_slice())?;
    let rules = fields(alloc, names, number, keys.as_slice(), statement)?;
    let musts = musts(alloc, tree, container, table, shape)?;
    Ok(Shape {
        name,
        fixed: statement.keyword.as_str() != "list",
        keys: leaves,
        fields: rules,
        musts,
    })
}

/// The shapes of a table, in the order of the text.
fn shape_models<'t, 'a>(
    alloc: Global,
    names: &Names<'a>,
    tree: &ModelTree<'a>,
    container: &'t ContainerNode<'a>,
    table: &'t TableNode<'a>,
) -> Result<Sequence<IndexedShape>, Memory>
    requires { tree.now ≡ names.now }
    ensures models { IfOk result (λ shapes. Gives shapes (λ readers.
        map (shape_model stored names.now readers container.now table.now) (shapes_of table.now))) }
    ensures count { IfOk result (λ shapes. length shapes ≡ length (shapes_of table.now)) }
{
    let mut shapes = Sequence::new(alloc);
    for shape in table.shapes() {
        let model = shape_model(alloc, names, tree, container, table, shape)?;
        shapes.push(IndexedShape::new(alloc, model)?)?;
    }
    Ok(shapes)
}

/// A table of a module, which has fewer than 2^32 statements in it.
fn table_of<'t, 'a>(
    alloc: Global,
    names: &Names<'a>,
    tree: &ModelTree<'a>,
    container: &'t ContainerNode<'a>,
    table: &'t TableNode<'a>,
) -> Result<TableShapes, Memory>
    requires same { tree.now ≡ names.now }
    requires numbered { container.now.number < 2 ^ 32 }
    requires few { weight table.now < 2 ^ 32 }
    ensures { IfOk result (λ t. Gives (table_model t) (λ readers.
        table_of stored names.now readers container.now table.now)) }
{
    let shapes = shape_models(alloc, names, tree, container, table)?;
    Ok(TableShapes {
        name: name_of(alloc, table.statement())?,
        owner: container.number() as u32,
        shapes,
    })
}

/// Adds the tables of a container of a module.
fn push_tables<'t, 'a>(
    alloc: Global,
    tables: &mut Sequence<TableShapes>,
    names: &Names<'a>,
    tree: &ModelTree<'a>,
    container: &'t ContainerNode<'a>,
) -> Result<(), Memory>
    requires same { tree.now ≡ names.now }
    requires small { IsSmall container.now }
    ensures { OnOk result (Gives (map table_model tables.new) (λ readers.
        map table_model tables.old ++ tables_in stored names.now readers container.now)) }
{
    for table in container.tables() {
        tables.push(table_of(alloc, names, tree, container, table)?)?;
    }
    Ok(())
}

/// The tables of all modules, in the order of the text.
fn all_tables<'a>(
    alloc: Global,
    names: &Names<'a>,
    tree: &ModelTree<'a>,
) -> Result<Sequence<TableShapes>, Memory>
    requires same { tree.now ≡ names.now }
    requires small { All IsSmall (containers_of tree.now) }
    ensures { IfOk result (λ tables. Gives (map table_model tables) (λ readers.
        flat_map (tables_in stored names.now readers) (containers_of names.now))) }
{
    let mut tables = Sequence::new(alloc);
    for container in tree.containers() {
        push_tables(alloc, &mut tables, names, tree, container)?;
    }
    Ok(tables)
}

/// Adds the name of a module, where there is one of that number.
fn push_module_name(
    alloc: Global,
    modules: &mut NameList,
    names: &Names,
    number: usize,
) -> Result<(), Memory>
    ensures { OnOk result (modules.new ≡ modules.old
        ++ option_to_list (option_map (λ m. name_of m.statement) (slice_get names.now number))) }
{
    match names.module_at(number) {
        Some((_, statement)) => modules.push(name_of(alloc, statement)?),
        None => Ok(()),
    }
}

/// The names of the modules, in the order of the files.
fn module_names(alloc: Global, names: &Names) -> Result<NameList, Memory>
    ensures { IfOk result (λ modules. modules ≡ map (λ m. name_of m.statement) names.now) }
{
    let mut modules = Sequence::new(alloc);
    for number in 0..names.len() {
        push_module_name(alloc, &mut modules, names, number)?;
    }
    Ok(modules)
}

/// The models of all modules, those of files with which nothing is wrong.
pub(crate) fn models_of<'a>(
    alloc: Global,
    names: &Names<'a>,
    tree: &ModelTree<'a>,
) -> Result<Models, Memory>
    requires same { tree.now ≡ names.now }
    requires small { All IsSmall (containers_of tree.now) }
    requires files { (models : ModelSet)
        → Gives models (models_of stored names.now) → HaveFiles models }
    ensures { IfOk result (λ models. Gives models (models_of stored names.now)) }
{
    let modules = module_names(alloc, names)?;
    let tables = all_tables(alloc, names, tree)?;
    Models::new(alloc, modules, tables)
}
