//! The defined names, by namespace. Each namespace has a number. A reference without a dot is
//! looked up by the number of its namespace, so the cost doesn't depend on the namespace's length.

ghost use Rattle.std.specs.Prelude.{◌≡◌, ◌<◌, ℕ, List, Some, length};
ghost use Rattle.std.specs.BTreeMap.{get_by_text};

use crate::names::without_namespace;
use avro_nodes::{has_dot, namespace_of};
use std::alloc::{AllocError, Global};
use std::collections::BTreeMap;

/// A namespace, and its number in the `NameTable`.
#[derive(Drop)]
pub struct Namespace<'a> {
    pub text: &'a str,
    pub number: usize,
}

/// The names defined so far, with the places of their definitions.
#[derive(Drop)]
pub struct NameTable {
    /// the number of each namespace
    numbers: BTreeMap<String, usize>,
    /// for each namespace, by its number: the places of the names in it
    tables: Vec<BTreeMap<String, u32>>,
    ghost below: { (space : List ℕ) (n : ℕ) → get_by_text numbers space ≡ Some n
        → n < length tables.items },
    // different namespaces have different numbers
    ghost differ: { (space other : List ℕ) (n : ℕ) → get_by_text numbers space ≡ Some n
        → get_by_text numbers other ≡ Some n → space ≡ other },
}

impl NameTable {
    ghost use Rattle.std.specs.Prelude.{slice_get, IfOk, OnOk};
    ghost use Rattle.avro_schema.specs.Names.{none_known, defined, resolved};
    ghost use Rattle.avro_nodes.specs.Names.{namespace_of};
    ghost use Rattle.avro_schema.specs.Inside.NameTables.{in_table, namespace_number, place_in, known_in, HasNumber, KeepsNumbers};

    /// An empty table.
    pub fn none(alloc: Global) -> NameTable
        ensures { known_in result ≡ none_known }
    {
        NameTable {
            numbers: BTreeMap::new(alloc),
            tables: Vec::new(alloc),
        }
    }

    /// The number of a namespace. A new namespace gets a new number.
    ///
    /// # Errors
    ///
    /// `AllocError` if allocation fails. The contract doesn't say which names are then known.
    pub fn number(&mut self, alloc: Global, space: &str) -> Result<usize, AllocError>
        ensures there { IfOk result (λ n. namespace_number self.new space.now ≡ Some n) }
        ensures kept { OnOk result (KeepsNumbers self.old self.new) }
        ensures same { OnOk result ((other name : List ℕ)
            → place_in self.new other name ≡ place_in self.old other name) }
    {
        if let Some(number) = self.numbers.get(space) {
            return Ok(*number);
        }
        let name = String::from_str(alloc, space)?;
        let number = self.tables.len();
        self.tables.push(BTreeMap::new(alloc))?;
        self.numbers.insert(name, number)?;
        Ok(number)
    }

    /// The place of a name in the namespace with this number, or `None` if it isn't defined.
    fn place_at(&self, number: usize, name: &str) -> Option<u32>
        ensures { result ≡ in_table (slice_get self.now.tables.items number) name.now }
    {
        self.tables.get(number)?.get(name).copied()
    }

    /// The place of a name in a namespace, or `None` if it isn't defined.
    fn place_in(&self, space: &str, name: &str) -> Option<u32>
        ensures { result ≡ place_in self.now space.now name.now }
    {
        self.place_at(*self.numbers.get(space)?, name)
    }

    /// The place of the definition with this full name, or `None` if there is none.
    pub fn place_of(&self, full: &str) -> Option<u32>
        ensures { result ≡ known_in self.now full.now }
    {
        let space = namespace_of(full);
        self.place_in(space, without_namespace(space, full))
    }

    /// Defines a full name at a place, and returns the number of its namespace. If the name was
    /// defined before, its place is replaced.
    ///
    /// # Errors
    ///
    /// `AllocError` if allocation fails. The contract doesn't say which names are then known.
    pub fn define(&mut self, alloc: Global, full: &str, place: u32) -> Result<usize, AllocError>
        ensures defined { OnOk result (known_in self.new ≡ defined (known_in self.old) full.now place) }
        ensures there { IfOk result (λ n. namespace_number self.new (namespace_of full.now) ≡ Some n) }
        ensures kept { OnOk result (KeepsNumbers self.old self.new) }
    {
        let space = namespace_of(full);
        let number = self.number(alloc, space)?;
        let name = String::from_str(alloc, without_namespace(space, full))?;
        self.tables[number].insert(name, place)?;
        Ok(number)
    }

    /// The place of the type that a reference names. A name without a dot is looked up in the
    /// enclosing namespace, then in the null namespace.
    #[tactic(auto, unfolding(crate::specs::Names::resolved))]
    pub fn resolve(&self, space: &Namespace, name: &str) -> Option<u32>
        requires { HasNumber self.now space.now }
        ensures { result ≡ resolved (known_in self.now) space.now.text.now name.now }
    {
        if has_dot(name) {
            return self.place_of(name);
        }
        match self.place_at(space.number, name) {
            Some(place) => Some(place),
            None => self.place_of(name),
        }
    }
}
