//! A store of the texts of a map.
ghost use Rattle.std.specs.Prelude.{◌≡◌, IfOk};
ghost use Rattle.inline_uses.specs.TextMap.{texts_of};

use super::Store;
use super::window::Window;
use crate::text_map::TextMap;
use inlinable_string::InlinableString;
use std::alloc::{AllocError, Global};

impl Store {
    /// Returns the store of the texts of a map, under the same keys. It goes over the map once, and
    /// compares no keys. Fails only if an allocation does.
    pub fn from_map(alloc: Global, map: &TextMap<InlinableString>) -> Result<Store, AllocError>
        ensures { IfOk result (λ store. store ≡ texts_of map.now) }
    {
        let mut entries = Window::new(alloc);
        for (key, value) in map.iter() {
            entries.insert(entries.len(), (key.clone()?, value.clone()?))?;
        }
        Ok(Store { alloc, entries })
    }
}
