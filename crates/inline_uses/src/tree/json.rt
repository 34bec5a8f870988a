//! Trees as JSON: each node is an object, and those under it are its members.
ghost use Rattle.std.specs.Prelude.{◌≡◌, ℕ, suc, ◌++◌, ◌≤◌, List, length, slice_get, Some, None, Err, IfOk, IfErr, OnOk, IsSome, ◌⊎◌};
ghost use Rattle.serde_json.specs.Find.{as_object};
ghost use Rattle.serde_json.specs.View.{view};
ghost use Rattle.inline_uses.specs.Tree.{node_at, IsPlaceOf, IsShown, HaveSamePaths, Leads, listed, IsReadable, IsFaultOf};

use crate::tree::placed_key::PlacedKey;
use crate::tree::{Fault, LEVELS, Tree};
use inlinable_string::InlineStringN;
use inlinable_string::laws::bytes_of_parts;
use serde_json::{Map, Value, put};
use std::alloc::Global;

impl Tree {
    /// Makes the tree of a JSON object, whose members are objects in their turn, at most `LEVELS`
    /// one in another. Fails with `NotObject` only if it or a value in it is no object, with
    /// `LongKey` only if a key in it has more than 16 bytes, with `TooDeep` only if it is deeper
    /// than `LEVELS`, or with `NoMemory`, and never with another fault.
    pub fn from_json(alloc: Global, value: &Value) -> Result<Tree, Fault>
        ensures ok { IfOk result (λ tree. tree ≡ listed 0 None (view value.now)) }
        ensures shown { IfOk result (λ tree. IsShown tree None (view value.now)) }
        ensures readable { OnOk result (IsReadable 128 (view value.now)) }
        ensures fault { IfErr result (λ fault. IsFaultOf 128 (view value.now) fault) }
        ensures not_object { as_object (view value.now) ≡ None → result ≡ Err Fault.NotObject }
    {
        let mut tree = Tree::new(alloc);
        tree.add_json(None, value, LEVELS)?;
        Ok(tree)
    }

    /// Puts the members of a JSON object under a place that has no nodes, each with those of its
    /// own.
    fn add_json(&mut self, place: Option<usize>, value: &Value, levels: usize) -> Result<(), Fault>
        requires place { IsPlaceOf self.old place }
        requires free { (id : ℕ) (key : List ℕ)
            → ¬ (slice_get self.old id ≡ Some (node_at place key)) }
        ensures ok { OnOk result (self.new
            ≡ self.old ++ listed (length self.old) place (view value.now)) }
        ensures shown { OnOk result (IsShown self.new place (view value.now)) }
        ensures readable { OnOk result (IsReadable levels (view value.now)) }
        ensures fault { IfErr result (λ fault. IsFaultOf levels (view value.now) fault) }
        ensures not_object { as_object (view value.now) ≡ None → result ≡ Err Fault.NotObject }
    {
        let Value::Object(members) = value else {
            return Err(Fault::NotObject);
        };
        if levels == 0 {
            return Err(Fault::TooDeep);
        }
        bytes_of_parts();
        for (key, member) in members.iter() {
            let id = self.len();
            self.add(place, key.as_str())?;
            self.add_json(Some(id), member, levels - 1)?;
        }
        Ok(())
    }

    /// Returns the JSON object of the tree, whose members are objects in their turn: keys lead
    /// somewhere in it exactly where they lead to a node, and `from_json` reads it. Fails with
    /// `TooDeep` if a node is under `LEVELS - 1` others or more, one in another, or with
    /// `NoMemory`.
    pub fn to_json(&self, alloc: Global) -> Result<Value, Fault>
        ensures readable { IfOk result (λ value. IsReadable 128 (view value)) }
        ensures shown { IfOk result (λ value. IsShown self.now None (view value)) }
        ensures fault { IfErr result (λ fault. (fault ≡ Fault.NoMemory) ⊎ ((fault ≡ Fault.TooDeep)
            × ((keys : List (List ℕ)) × (to : ℕ) × Leads self.now None keys to
            × (128 ≤ length keys)))) }
    {
        self.object(alloc, None, LEVELS - 1)
    }

    /// The object of a place, which nests at most `below` others. It goes over the nodes under the
    /// place alone.
    fn object(&self, alloc: Global, place: Option<usize>, below: usize) -> Result<Value, Fault>
        requires { IsPlaceOf self.now place }
        ensures readable { IfOk result (λ value. IsReadable (suc below) (view value)) }
        ensures shown { IfOk result (λ value. IsShown self.now place (view value)) }
        ensures fault { IfErr result (λ fault. (fault ≡ Fault.NoMemory) ⊎ ((fault ≡ Fault.TooDeep)
            × ((keys : List (List ℕ)) × (to : ℕ) × Leads self.now place keys to
            × (suc below ≤ length keys)))) }
    {
        bytes_of_parts();
        let mut members = Map::new(alloc);
        let _ = self.nodes.len();
        let next = match place {
            Some(id) => id + 1,
            None => 0,
        };
        let first = PlacedKey::new(place, InlineStringN::new());
        let end = PlacedKey::new(Some(next), InlineStringN::new());
        for (entry, id) in self.ids.range(first..end) {
            let key = entry.key().as_str();
            if below == 0 {
                return Err(Fault::TooDeep);
            }
            let value = self.object(alloc, Some(*id), below - 1)?;
            put(&mut members, alloc, key, value)?;
        }
        Ok(Value::Object(members))
    }
}

/// Returns the tree of a tree's JSON, in which the same keys lead to nodes. Their numbers may be
/// others. Fails with `TooDeep` if the tree is too deep, or with `NoMemory`.
pub fn copied(alloc: Global, tree: &Tree) -> Result<Tree, Fault>
    ensures same { IfOk result (λ copy. HaveSamePaths tree.now copy) }
    ensures fault { IfErr result (λ fault. (fault ≡ Fault.NoMemory) ⊎ (fault ≡ Fault.TooDeep)) }
{
    let value = tree.to_json(alloc)?;
    Tree::from_json(alloc, &value)
}
