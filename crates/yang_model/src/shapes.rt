//! The shapes of a table's entries.
ghost use Rattle.std.specs.Prelude.{◌≡◌, IfOk, option_copied};
ghost use Rattle.yang_model.specs.ModelSets.{field_type};

use crate::name_index::NameIndex;
use host_core::{Memory, Names, Sequence, Txt};
use std::alloc::Global;
use std::marker::Model;
use xpath_part::Expr;
use yang_types::Ty;

/// A key leaf of a list.
#[derive(Drop)]
pub struct KeyLeaf {
    pub name: Txt,
    pub ty: Ty,
}

/// A leaf or a leaf-list of a shape that is no key leaf.
#[derive(Drop)]
pub struct FieldRule {
    pub name: Txt,
    pub ty: Ty,
    /// Whether it is a leaf-list.
    pub list: bool,
    pub mandatory: bool,
    pub default: Option<Txt>,
}

/// A must of a shape or of one of its leaves.
#[derive(Drop)]
pub struct MustRule {
    /// The leaf that it stands at, or None where it stands at the entry.
    pub leaf: Option<Txt>,
    pub expr: Expr,
    /// The tables whose containers a path of it passes, sorted, each once.
    pub reads: Names,
}

/// A list or a fixed container of a table.
#[derive(Drop)]
pub struct Shape {
    pub name: Txt,
    /// Whether it is a fixed container, which has no key leaves.
    pub fixed: bool,
    /// The key leaves in the order of the key.
    pub keys: Sequence<KeyLeaf>,
    /// The other leaves and leaf-lists in the order of the text.
    pub fields: Sequence<FieldRule>,
    /// The musts in the order of the text.
    pub musts: Sequence<MustRule>,
}

/// A shape whose fields are found by their names. Contracts see the shape.
#[derive(Drop)]
pub(crate) struct IndexedShape {
    shape: Shape,
    index: NameIndex,
}

impl Model for IndexedShape {
    ghost use Rattle.std.specs.Prelude.{map};
    ghost use Rattle.yang_model.specs.declared.shapes.Shape.{Shape};
    ghost use Rattle.yang_model.specs.Names.{IsIndexOf};

    ghost Value = { Shape };

    ghost use Rattle.yang_model.specs.ShapeCodes.{coded_shape};

    ghost coded = { coded_shape };

    ghost view = { λ s. s.shape };

    ghost invariant = { λ s. IsIndexOf s.index.places (map (λ f. f.name) s.shape.fields) };
}

impl IndexedShape {
    /// A shape with the index of its fields.
    pub(crate) fn new(alloc: Global, shape: Shape) -> Result<IndexedShape, Memory>
        ensures { IfOk result (λ s. s ≡ shape) }
    {
        let mut index = NameIndex::new(alloc);
        for (i, field) in shape.fields.items().iter().enumerate() {
            index.push(alloc, field.name.as_str(), i)?;
        }
        Ok(IndexedShape { shape, index })
    }

    /// The shape itself.
    pub(crate) fn shape(&self) -> &Shape
        ensures { result.now ≡ self.now }
    {
        &self.shape
    }

    /// The type of a field, or None where the shape has no such field.
    pub(crate) fn type_of(&self, field: &str) -> Option<&Ty>
        ensures { option_copied result ≡ field_type field.now self.now }
    {
        match self.index.place_of(field) {
            Some(i) => Some(&self.shape.fields.at(i).ty),
            None => None,
        }
    }
}
