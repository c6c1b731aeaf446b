//! A list for each key. Called by `ends` and `sendings`.
ghost use Rattle.std.specs.Prelude.{◌≡◌, ◌++◌, ◌∷◌, [], cond, OnOk, None};
ghost use Rattle.indexmap.specs.IndexMap.{get};
ghost use Rattle.circuit_verdict.specs.Lists.{list_in};

use indexmap::IndexMap;
use radio_base::NoMemory;
use std::alloc::Global;
use std::hash::Hash;

#[derive(Drop)]
pub(crate) struct Lists<K: Eq + Hash, V> {
    alloc: Global,
    pub(crate) lists: IndexMap<K, Vec<V>>,
}

impl<K: Copy + Eq + Hash, V: Copy> Lists<K, V> {
    /// Each list is empty.
    pub(crate) fn new(alloc: Global) -> Lists<K, V>
        ensures { (key : K) → list_in (get K.eq result.lists key) ≡ [] }
    {
        Lists {
            alloc,
            lists: IndexMap::new(alloc),
        }
    }

    /// The list of a key.
    pub(crate) fn of(&self, key: &K) -> &[V]
        ensures { result.now ≡ list_in (get K.eq self.now.lists key.now) }
    {
        match self.lists.get(key) {
            Some(list) => list.as_slice(),
            None => &[],
        }
    }

    /// Puts an item at the end of the list of a key.
    pub(crate) fn push(&mut self, key: K, item: V) -> Result<(), NoMemory>
        ensures { OnOk result ((k : K) → list_in (get K.eq self.new.lists k)
            ≡ cond (K.eq key k) (list_in (get K.eq self.old.lists key) ++ item ∷ [])
            (list_in (get K.eq self.old.lists k))) }
    {
        match self.lists.get_mut(&key) {
            Some(list) => {
                list.push(item)?;
                Ok(())
            }
            None => self.begin(key, item),
        }
    }

    /// Begins the list of a key that has none.
    fn begin(&mut self, key: K, item: V) -> Result<(), NoMemory>
        requires { get K.eq self.old.lists key ≡ None }
        ensures { OnOk result ((k : K) → list_in (get K.eq self.new.lists k)
            ≡ cond (K.eq key k) (item ∷ []) (list_in (get K.eq self.old.lists k))) }
    {
        let mut list = Vec::new(self.alloc);
        list.push(item)?;
        self.lists.insert(key, list)?;
        Ok(())
    }
}
