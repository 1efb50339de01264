//! The tree of an OIL file: its objects, with attributes within attributes.
use osek_values::{Name, Seq};
use std::marker::Model;

/// What stands in front of a number.
#[derive(Clone, Copy)]
pub enum Sign {
    Bare,
    Plus,
    Minus,
}

/// The value of an attribute.
#[derive(Drop)]
pub enum Value {
    Word(Name),
    Quoted(Seq<u8>),
    Numeric(Sign, u64),
}

/// An attribute, with the attributes in it. Its description isn't kept.
#[cycle(attrs)]
#[derive(Drop)]
pub struct Attr {
    pub name: Name,
    /// The line of the name.
    pub line: u32,
    pub value: Value,
    /// The attributes between its braces; none where it has no braces.
    pub attrs: AttrList,
}

/// A list of attributes, in the order of the text. Contracts see it and all the lists in it as data.
#[cycle(attrs)]
#[derive(Drop)]
pub struct AttrList {
    attrs: Vec<Attr>,
}

impl Model for AttrList {
    ghost use Rattle.oil_tree.specs.Attrs.{Attrs, nodes};

    ghost Value = { Attrs };

    ghost use Rattle.oil_tree.specs.AttrCodes.{attrs_code};

    ghost coded = { attrs_code };

    ghost use Rattle.oil_tree.specs.AttrLists.{list_of};

    ghost view = { λ a. list_of a.attrs.items };

    ghost size = { nodes };

    ghost use Rattle.oil_tree.specs.AttrFalls.{most_deep-le-nodes, within};

    ghost size_decreases = { λ a h. within _ _ (most_deep-le-nodes a.attrs.items) };
}

impl AttrList {
    ghost use Rattle.std.specs.Prelude.{◌≡◌};
    ghost use Rattle.oil_tree.specs.AttrLists.{attr_list, list_of};

    /// The attributes of a `Vec`. It takes no memory, and keeps no room for more: most lists are short.
    pub fn from_vec(mut attrs: Vec<Attr>) -> Self
        ensures { result ≡ list_of attrs.items }
    {
        attrs.shrink_to_fit();
        AttrList { attrs }
    }

    /// The attributes, as a slice.
    pub fn as_slice(&self) -> &[Attr]
        ensures items { result.now ≡ attr_list self.now }
        ensures list { list_of result.now ≡ self.now }
    {
        self.attrs.as_slice()
    }
}

/// An object of an OIL file. Its description isn't kept.
#[derive(Drop)]
pub struct Object {
    pub kind: Name,
    /// The line of the kind.
    pub line: u32,
    pub name: Name,
    /// The attributes between its braces; none where it has no braces.
    pub attrs: AttrList,
}

/// A list of objects, in the order of the text.
#[derive(Drop)]
pub struct ObjectList {
    objects: Vec<Object>,
}

impl Model for ObjectList {
    ghost use Rattle.std.specs.Prelude.{List};
    ghost use Rattle.oil_tree.specs.declared.tree.Object.{Object};

    ghost Value = { List Object };

    ghost use Rattle.oil_tree.specs.ObjectCodes.{objects_code};

    ghost coded = { objects_code };

    ghost view = { λ a. a.objects.items };
}

impl ObjectList {
    ghost use Rattle.std.specs.Prelude.{◌≡◌};

    /// The objects of a `Vec`. It takes no memory.
    pub fn from_vec(objects: Vec<Object>) -> Self
        ensures { result ≡ objects.items }
    {
        ObjectList { objects }
    }

    /// The objects, as a slice.
    pub fn as_slice(&self) -> &[Object]
        ensures { result.now ≡ self.now }
    {
        self.objects.as_slice()
    }
}

/// The tree of an OIL file. OIL_VERSION, IMPLEMENTATION, the name of the CPU and descriptions aren't kept.
#[derive(Drop)]
pub struct Tree {
    /// The line of `CPU`.
    pub line: u32,
    pub objects: ObjectList,
}
