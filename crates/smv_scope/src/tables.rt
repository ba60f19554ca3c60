// What is looked up in a text.
ghost use Rattle.std.specs.Prelude.{◌≡◌, option_map, option_copied, slice_get};
ghost use Rattle.smv_core.specs.Types.{find_name};
ghost use Rattle.smv_mentions.specs.Scopes as scopes;
ghost use Rattle.smv_mentions.specs.Scopes.{pieces, own_names, constants, body_if_module};
ghost use Rattle.smv_scope.specs.Numbered.{mentions_at};
ghost use Rattle.smv_scope.specs.Held.{AreTables, body_of, own_of};

use name_index::NameIndex;
use name_index::map::NameMap;
use smv_core::name::Name;
use smv_core::tree::{Field, Text, Word};
use smv_mentions::mentions::What;
use smv_mentions::pieces::Piece;

/// The struct to which a type leads through arrays and names: its fields, and the number of the top in which it stands.
#[derive(Clone, Copy)]
pub struct Led<'a> {
    pub fields: &'a [Field],
    pub place: usize,
}

/// A name of a module: where it is declared, and what it is.
#[derive(Clone, Copy)]
pub struct Own<'a> {
    pub at: u32,
    pub what: What<'a>,
}

/// A constant: where it is first listed, and the number of that list.
#[derive(Clone, Copy)]
pub struct Constant {
    pub at: u32,
    pub list: usize,
}

/// A module: the number of its top, and its formals.
#[derive(Clone, Copy)]
pub struct Module<'a> {
    pub place: usize,
    pub formals: &'a [Word],
}

/// A text with its tops, and what is looked up in it.
#[derive(Drop)]
pub struct Tables<'a, 'p> {
    pub text: &'a Text,
    pub pieces: &'p [Piece<'a>],
    /// The names of the tops.
    pub names: NameIndex<'a>,
    /// For each top the struct to which it leads, where it is a type that does.
    pub structs: Vec<Option<Led<'a>>>,
    /// For each top the names that it declares.
    pub own: Vec<NameMap<'a, Own<'a>>>,
    /// The constants of all enumerations.
    pub constants: NameMap<'a, Constant>,
    /// The lists of all enumerations.
    pub lists: Vec<&'a [Word]>,
}

/// The module of a name, unless the name is first declared as a type.
pub fn module_named<'a>(tables: &Tables<'a, '_>, name: &Name) -> Option<Module<'a>>
    requires { AreTables tables.now }
    ensures { scopes.module_named (pieces tables.now.text.now) name.now ≡ option_map (body_of tables.now.text.now) result }
{
    match tables.names.find(name) {
        Some(place) => module_at(tables, place),
        None => None,
    }
}

// The item of a number, if there is one.
pub fn item_at<T>(items: &[T], place: usize) -> Option<&T>
    ensures { option_copied result ≡ slice_get items.now place }
{
    items.get(place)
}

// The top of a number, where it is a module.
fn module_at<'a>(tables: &Tables<'a, '_>, place: usize) -> Option<Module<'a>>
    requires { AreTables tables.now }
    ensures { body_if_module (slice_get (pieces tables.now.text.now) place) ≡ option_map (body_of tables.now.text.now) result }
{
    match item_at(tables.pieces, place) {
        Some(piece) => match piece.formals {
            Some(formals) => Some(Module { place, formals }),
            None => None,
        },
        None => None,
    }
}

/// A name of the top of a number, as it is first declared.
pub fn own_name<'a>(tables: &Tables<'a, '_>, place: usize, name: &Name) -> Option<Own<'a>>
    requires { AreTables tables.now }
    ensures { find_name (own_names (mentions_at tables.now.text.now place)) name.now ≡ option_map own_of result }
{
    match item_at(tables.own.as_slice(), place) {
        Some(names) => names.find(name).copied(),
        None => None,
    }
}

/// Where a name is first declared as a constant.
pub fn constant_at(tables: &Tables, name: &Name) -> Option<u32>
    requires { AreTables tables.now }
    ensures { result ≡ option_map (λ constant. constant.at) (find_name (constants (pieces tables.now.text.now)) name.now) }
{
    match tables.constants.find(name) {
        Some(constant) => Some(constant.at),
        None => None,
    }
}
