//! A document's tree: nodes with short keys, of which no two under one node are equal.
ghost use Rattle.std.specs.Prelude.{◌≡◌, ℕ, ◌<◌, ◌≤◌, ◌↔◌, List, [], ◌∷◌, ◌++◌, length, slice_get, Some, None, Err, IfOk, IfErr, OnOk, OnErr, IsTrue, ◌⊎◌, option_map};
ghost use Rattle.std.specs.Str.{chars};
ghost use Rattle.inlinable_string.specs.Text.{bytes_of, size};
ghost use Rattle.inlinable_string.specs.Values.{inlinable_state};
ghost use Rattle.inline_uses.specs.Tree.{node_at, IsPlaceOf, IsTree, Leads, joined};

use crate::tree::placed_key::PlacedKey;
use inlinable_string::laws::{bytes_of_parts, sizes_of_parts};
use inlinable_string::{InlinableString, InlineStringN, StringExt, StringMake};
use std::alloc::{AllocError, Global};
use std::collections::BTreeMap;
use std::collections::btree_map::Entry;
use std::error::Error;
use std::fmt;
use std::marker::Model;

pub mod json;
mod placed_key;

/// How many objects may be nested in the JSON of a tree, the outermost included.
pub const LEVELS: usize = 128;

/// A node: what it is under, which is a node by its number or the top, and its key there.
#[derive(Drop)]
pub struct Node {
    pub parent: Option<usize>,
    pub key: InlineStringN<16>,
}

/// Why a tree was refused.
#[derive(Clone, Copy, Debug, PartialEq, Eq)]
pub enum Fault {
    /// A key has more than 16 bytes.
    LongKey,
    /// There is no such node.
    NoNode,
    /// The place has a node with this key.
    Taken,
    /// A JSON value is not an object, or one in it is not.
    NotObject,
    /// More than `LEVELS` objects are nested in JSON.
    TooDeep,
    /// An allocation failed.
    NoMemory,
}

impl Error for Fault {}

impl fmt::Display for Fault {
    fn fmt<W: fmt::Write>(&self, f: &mut fmt::Formatter<W>) -> fmt::Result {
        f.write_str(match self {
            Fault::LongKey => "a key has more than 16 bytes",
            Fault::NoNode => "there is no such node",
            Fault::Taken => "the place has a node with this key",
            Fault::NotObject => "a value of the JSON is not an object",
            Fault::TooDeep => "too many objects are nested in the JSON",
            Fault::NoMemory => "there is no memory",
        })
    }
}

impl From<AllocError> for Fault {
    ghost use Rattle.inline_uses.specs.declared.tree.Fault.TheVariants.{NoMemory};

    ghost from_gives = { λ _ fault. fault ≡ NoMemory };

    fn from(_: AllocError) -> Self {
        Fault::NoMemory
    }
}

/// A tree, whose nodes are numbered in the order in which they came. A contract sees the list of
/// them.
#[derive(Drop)]
pub struct Tree {
    nodes: Vec<Node>,
    ids: BTreeMap<PlacedKey, usize>,
}

impl Model for Tree {
    ghost use Rattle.std.specs.Prelude.{List};
    ghost use Rattle.inline_uses.specs.declared.tree.Node.{Node};
    ghost use Rattle.inline_uses.specs.Tree.{IsTree, AreFound};

    ghost Value = { List Node };

    ghost view = { λ s. s.nodes.items };

    ghost invariant = { λ s. IsTree s.nodes.items × AreFound s.nodes.items s.ids };
}

impl Tree {
    /// The tree of no node.
    pub fn new(alloc: Global) -> Self
        ensures { result ≡ [] }
    {
        Tree {
            nodes: Vec::new(alloc),
            ids: BTreeMap::new(alloc),
        }
    }

    /// How many nodes there are. No two of them that are under one place have the same key.
    pub fn len(&self) -> usize
        ensures count { result ≡ length self.now }
        ensures tree { IsTree self.now }
    {
        self.nodes.len()
    }

    /// A node by its number.
    pub fn node(&self, id: usize) -> Option<&Node>
        ensures { option_map (λ node. node.now) result ≡ slice_get self.now id }
    {
        self.nodes.get(id)
    }

    /// The node under a place that has this key, if there is one.
    pub fn child(&self, place: Option<usize>, key: &str) -> Option<usize>
        ensures { (id : ℕ) → (result ≡ Some id)
            ↔ (slice_get self.now id ≡ Some (node_at place (chars key.now))) }
    {
        bytes_of_parts();
        sizes_of_parts();
        let ids = &self.ids;
        let key: InlineStringN<16> = key.parse().ok()?;
        if !self.has(place) {
            return None;
        }
        ids.get(&PlacedKey::new(place, key)).copied()
    }

    /// Adds a node with this key under a place, after the others, and returns its number. A fault
    /// changes nothing; the first of `LongKey`, `NoNode`, `Taken` and `NoMemory` is returned.
    pub fn add(&mut self, place: Option<usize>, key: &str) -> Result<usize, Fault>
        ensures id { IfOk result (λ id. id ≡ length self.old) }
        ensures ok { OnOk result (self.new ≡ self.old ++ node_at place (chars key.now) ∷ []) }
        ensures err { OnErr result (self.new ≡ self.old) }

        // When each fault comes.
        ensures long_key { (result ≡ Err Fault.LongKey) ↔ (16 < length key.now) }
        ensures no_node { (result ≡ Err Fault.NoNode)
            ↔ ((length key.now ≤ 16) × ¬ (IsPlaceOf self.old place)) }
        ensures taken { (result ≡ Err Fault.Taken)
            ↔ ((length key.now ≤ 16) × IsPlaceOf self.old place
            × ((id : ℕ) × (slice_get self.old id ≡ Some (node_at place (chars key.now))))) }
        ensures object { ¬ (result ≡ Err Fault.NotObject) }
        ensures depth { ¬ (result ≡ Err Fault.TooDeep) }
    {
        bytes_of_parts();
        sizes_of_parts();
        let Ok(short) = key.parse() else {
            return Err(Fault::LongKey);
        };
        if !self.has(place) {
            return Err(Fault::NoNode);
        }
        self.put(place, short)
    }

    /// Puts a node under a place, unless one with its key is there. One search of the map finds
    /// that, and where the key goes, and only a key that is new allocates.
    fn put(&mut self, parent: Option<usize>, key: InlineStringN<16>) -> Result<usize, Fault>
        requires place { IsPlaceOf self.old parent }
        requires text { chars (bytes_of key) ≡ key }
        requires short { size key ≤ 16 }
        ensures id { IfOk result (λ id. id ≡ length self.old) }
        ensures ok { OnOk result (self.new ≡ self.old ++ node_at parent key ∷ []) }
        ensures err { OnErr result (self.new ≡ self.old) }
        ensures taken { (result ≡ Err Fault.Taken)
            ↔ ((id : ℕ) × (slice_get self.old id ≡ Some (node_at parent key))) }
        ensures fault { IfErr result (λ fault. (fault ≡ Fault.Taken) ⊎ (fault ≡ Fault.NoMemory)) }
    {
        let node = Node {
            parent,
            key: key.copy(),
        };
        let id = self.nodes.len();
        let Ok(entry) = self.ids.entry(PlacedKey::new(parent, key)) else {
            return Err(Fault::NoMemory);
        };
        match entry {
            Entry::Occupied(_) => Err(Fault::Taken),
            Entry::Vacant(vacant) => {
                if self.nodes.push(node).is_err() {
                    return Err(Fault::NoMemory);
                }
                vacant.insert(id);
                Ok(id)
            }
        }
    }

    /// Whether there is this place.
    fn has(&self, place: Option<usize>) -> bool
        ensures { IsTrue result ↔ IsPlaceOf self.now place }
    {
        match place {
            Some(id) => id < self.nodes.len(),
            None => true,
        }
    }

    /// Returns the keys from the top down to a node, each after a `/`.
    pub fn path(&self, alloc: Global, id: usize) -> Result<InlinableString, Fault>
        ensures ok { IfOk result (λ path. (keys : List (List ℕ)) × Leads self.now None keys id
            × ((inlinable_state 30 path).text ≡ joined keys)) }
        ensures no_node { (result ≡ Err Fault.NoNode) ↔ (length self.now ≤ id) }
        ensures fault { IfErr result (λ fault. (fault ≡ Fault.NoNode) ⊎ (fault ≡ Fault.NoMemory)) }
    {
        if self.nodes.len() <= id {
            return Err(Fault::NoNode);
        }
        let mut nodes = Vec::new(alloc);
        let mut place = Some(id);
        'up: while let Some(at) = place {
            let node = &self.nodes[at];
            if nodes.push(node).is_err() {
                return Err(Fault::NoMemory);
            }
            place = node.parent;
        }
        let mut path = InlinableString::new(alloc);
        'down: while let Some(node) = nodes.pop() {
            path.push('/')?;
            path.push_str(node.key.as_str())?;
        }
        Ok(path)
    }
}
