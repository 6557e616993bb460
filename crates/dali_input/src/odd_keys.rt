use std::alloc::Global;

/// The keys of an item that are reported to a person, each once: those that orders don't have, and those that occur
/// there again. The first ones by their bytes; one for which there is no memory is left out.
#[derive(Drop)]
pub struct OddKeys<'a> {
    keys: Vec<&'a str>,
    // How many are kept.
    most: usize,
}

impl<'a> OddKeys<'a> {
    /// No keys, of which at most `most` will be kept.
    pub(crate) fn new(alloc: Global, most: usize) -> OddKeys<'a> {
        OddKeys {
            keys: Vec::new(alloc),
            most,
        }
    }

    /// The keys in the order of their bytes.
    pub fn as_slice(&self) -> &[&'a str] {
        self.keys.as_slice()
    }

    /// Adds a key.
    pub(crate) fn add(&mut self, key: &'a str) {
        let Err(place) = self.keys.binary_search(&key) else {
            return;
        };
        if place >= self.most {
            return;
        }
        if self.keys.len() >= self.most {
            let _last = self.keys.pop();
        }
        if place <= self.keys.len() {
            let _no_memory = self.keys.insert(place, key).is_err();
        }
    }

    /// Takes all keys away.
    pub(crate) fn clear(&mut self) {
        self.keys.clear();
    }
}
