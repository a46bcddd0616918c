//! The types of leaves.

ghost use Rattle.std.specs.Prelude.{◌≡◌, ◌<◌, [], ◌∷◌, ◌++◌, length, map, slice_get, Some, IfErr, IfOk, OnOk, OnErr};
ghost use Rattle.yang_types.specs.DataType.{inner, members, types_of, union};
ghost use Rattle.yang_types.specs.DataTypes.{data_type};

use host_core::{Memory, Names, Sequence, Txt};
use std::alloc::Global;
use std::marker::Model;
use yang_pattern::Pattern;

/// A least and a greatest number, both of them within.
#[derive(Debug, Clone, Copy, PartialEq, Eq, Drop)]
pub struct Bounds {
    pub low: i128,
    pub high: i128,
}

/// The leaf that a leafref names: a part of the keys of a table's shape, counted from 0.
#[derive(Debug, Drop)]
pub struct Target {
    pub table: Txt,
    pub shape: u32,
    pub part: u32,
}

/// The types of RFC 6991 that are built in.
#[derive(Debug, Clone, Copy, PartialEq, Eq, Drop)]
pub enum Builtin {
    Ipv4Address,
    Ipv6Address,
    IpAddress,
    Ipv4Prefix,
    Ipv6Prefix,
    IpPrefix,
    MacAddress,
}

/// A type (RFC 7950, section 9). Contracts see it as its `data_type`.
#[cycle(ty)]
pub enum Ty {
    /// Every text.
    Text,
    /// A decimal number within bounds.
    Number(Bounds),
    /// What the type accepts, of a number of characters within one of the bounds.
    Length(TyBox, Sequence<Bounds>),
    /// What the type accepts, of a value within one of the bounds.
    Range(TyBox, Sequence<Bounds>),
    /// What the type accepts and the pattern matches.
    Match(TyBox, Pattern),
    /// Exactly these texts.
    OneOf(Names),
    /// `true` and `false`.
    Truth,
    /// An address, a prefix or the like.
    Builtin(Builtin),
    /// What a leafref accepts by itself: the type of the leaf that it names.
    Ref(Target, TyBox),
    /// What one of these accepts.
    Union(Types),
}

/// A type within another one. Contracts see its data type.
#[derive(Drop)]
#[cycle(ty)]
pub struct TyBox {
    ty: Box<Ty>,
}

/// A list of types. Contracts see the list of their data types.
#[derive(Drop)]
#[cycle(ty)]
pub struct Types {
    types: Vec<Ty>,
}

/// A type that restricts another one may be the last of a long chain, so what is given up goes down there
/// in a loop.
impl Drop for Ty {
    #[cycle(ty)]
    fn drop(mut self) {
        loop {
            match self {
                Ty::Length(inner, parts) => {
                    drop(parts);
                    self = inner.into_ty();
                }
                Ty::Range(inner, parts) => {
                    drop(parts);
                    self = inner.into_ty();
                }
                Ty::Match(inner, pattern) => {
                    drop(pattern);
                    self = inner.into_ty();
                }
                Ty::Ref(target, inner) => {
                    drop(target);
                    self = inner.into_ty();
                }
                Ty::OneOf(names) => {
                    drop(names);
                    return;
                }
                Ty::Union(types) => {
                    drop(types);
                    return;
                }
                Ty::Text | Ty::Number(_) | Ty::Truth | Ty::Builtin(_) => return,
            }
        }
    }
}

impl Ty {
    /// The members of a union. A type that is none is given back.
    pub fn into_union(self) -> Result<Types, Ty>
        ensures union { IfOk result (λ types. data_type self ≡ union (types_of types)) }
        ensures same { IfErr result (λ ty. data_type ty ≡ data_type self) }
        ensures other { IfErr result (λ ty. members (data_type ty) ≡ data_type ty ∷ []) }
    {
        match self {
            Ty::Union(types) => Ok(types),
            _ => Err(self),
        }
    }

    /// The type that stands in a leafref, whose target is dropped. A type that is none is given back.
    pub fn into_inner(self) -> Ty
        ensures { data_type result ≡ inner (data_type self) }
    {
        match self {
            Ty::Ref(target, inner) => {
                drop(target);
                inner.into_ty()
            }
            _ => self,
        }
    }
}

impl Model for TyBox {
    ghost use Rattle.yang_types.specs.Coding.{coded_type};
    ghost use Rattle.yang_types.specs.DataType.{DataType, type_weight};

    ghost Value = { DataType };

    ghost coded = { coded_type };

    ghost use Rattle.yang_types.specs.DataTypes.{data_type};

    ghost view = { λ a. data_type a.ty.value };

    ghost size = { type_weight };

    ghost use Rattle.yang_types.specs.Falls.{type_falls};

    ghost size_decreases = { λ a h. type_falls a.ty.value };
}

impl Model for Types {
    ghost use Rattle.std.specs.Prelude.{List, map};
    ghost use Rattle.std.specs.Coded.{coded_list};
    ghost use Rattle.yang_types.specs.Coding.{coded_type};
    ghost use Rattle.yang_types.specs.DataType.{DataType, types_weight, types_of};

    ghost Value = { List DataType };

    ghost coded = { coded_list coded_type };

    ghost use Rattle.yang_types.specs.DataTypes.{data_type};

    ghost view = { λ a. map data_type a.types.items };

    ghost size = { λ ts. types_weight (types_of ts) };

    ghost use Rattle.yang_types.specs.Falls.{types_fall};

    ghost size_decreases = { λ a h. types_fall a.types.items };
}

impl TyBox {
    /// A box of a type. Without memory the type is dropped.
    pub fn new(alloc: Global, ty: Ty) -> Result<TyBox, Memory>
        ensures { IfOk result (λ b. b ≡ data_type ty) }
    {
        match Box::new(alloc, ty) {
            Ok(ty) => Ok(TyBox { ty }),
            Err(_) => Err(Memory),
        }
    }

    /// The type, out of its box.
    fn into_ty(self) -> Ty
        ensures { data_type result ≡ self }
    {
        let TyBox { ty } = self;
        Box::into_inner(ty)
    }

    /// The type itself.
    pub fn ty(&self) -> &Ty
        ensures { data_type result.now ≡ self.now }
    {
        &self.ty
    }
}

impl Types {
    /// No types, which take no memory.
    pub fn new(alloc: Global) -> Types
        ensures { result ≡ [] }
    {
        Types {
            types: Vec::new(alloc),
        }
    }

    /// How many types there are.
    pub fn len(&self) -> usize
        ensures { result ≡ length self.now }
    {
        self.types.len()
    }

    /// The whole list.
    pub fn items(&self) -> &[Ty]
        ensures { map data_type result.now ≡ self.now }
    {
        self.types.as_slice()
    }

    /// The types, out of their list.
    pub fn into_items(self) -> Vec<Ty>
        ensures { map data_type result.items ≡ self }
    {
        let Types { types } = self;
        types
    }

    /// The type at an index, counted from 0.
    pub fn at(&self, i: usize) -> &Ty
        requires { i < length self.now }
        ensures { slice_get self.now i ≡ Some (data_type result.now) }
    {
        &self.types[i]
    }

    /// Adds a type at the end. Without memory the list stays as it was.
    pub fn push(&mut self, ty: Ty) -> Result<(), Memory>
        ensures ok { OnOk result (self.new ≡ self.old ++ data_type ty ∷ []) }
        ensures err { OnErr result (self.new ≡ self.old) }
    {
        match self.types.push(ty) {
            Ok(()) => Ok(()),
            Err(_) => Err(Memory),
        }
    }
}
