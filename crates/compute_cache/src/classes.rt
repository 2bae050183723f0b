ghost use Rattle.std.specs.Prelude.{◌≡◌, ◌↔◌, ◌++◌, ◌∷◌, [], ◌≤◌, ◌<◌, length, string_bytes, position, map, Some, None, Err, IfOk, IfErr, OnErr, nat_lt};
ghost use Rattle.compute_cache.specs.declared.error.CacheError.TheVariants.{NameTaken, ClassesFull};
ghost use Rattle.compute_cache.specs.Names.{is_name, IsRegisterCause};

use crate::error::CacheError;
use std::alloc::Global;
use std::marker::Model;

/// The number of a class in its cache, from 0 on in the order of registering.
#[derive(Clone, Copy, Debug, PartialEq, Eq)]
pub struct ClassId(pub u8);

/// The names of a cache's classes.
///
/// Contracts see the list of the names, as bytes.
#[derive(Drop)]
pub struct Classes {
    names: Vec<String>,
}

impl Model for Classes {
    ghost use Rattle.std.specs.Prelude.{ℕ, List, ◌≤◌, length, map, string_bytes, vec_len};

    ghost Value = { List (List ℕ) };

    ghost view = { λ c. map string_bytes c.names.items };

    ghost invariant = { λ c. vec_len c.names ≤ 256 };
}

// Where a name stands.
fn place_of(names: &[String], name: &str) -> Option<usize>
    ensures { result ≡ position (is_name name.now) (map string_bytes names.now) }
{
    find_name(names, name)
}

fn find_name(names: &[String], name: &str) -> Option<usize>
    ensures { result ≡ position (λ other. is_name name.now (string_bytes other)) names.now }
{
    names.iter().position(|other| other.as_str() == name)
}

impl Classes {
    /// No class.
    pub fn new(alloc: Global) -> Classes
        ensures { result ≡ [] }
    {
        Classes {
            names: Vec::new(alloc),
        }
    }

    /// A class of this name. Its number is how many there were. After a refusal nothing changed.
    pub fn register(&mut self, alloc: Global, name: &str) -> Result<ClassId, CacheError>
        ensures ok { IfOk result (λ id. (id.0 ≡ length self.old) × (self.new ≡ self.old ++ name.now ∷ [])) }
        ensures taken { (id : ClassId) → (result ≡ Err (NameTaken id)) ↔ (position (is_name name.now) self.old ≡ Some id.0) }
        ensures full { (result ≡ Err ClassesFull) ↔ ((position (is_name name.now) self.old ≡ None) × (256 ≤ length self.old)) }
        ensures cause { IfErr result IsRegisterCause }
        ensures err { OnErr result (self.new ≡ self.old) }
    {
        if let Some(place) = place_of(&self.names, name) {
            return Err(CacheError::NameTaken {
                id: ClassId(place as u8),
            });
        }
        if self.names.len() >= 256 {
            return Err(CacheError::ClassesFull);
        }
        let id = ClassId(self.names.len() as u8);
        let name = String::from_str(alloc, name).map_err(|_| CacheError::Memory)?;
        self.names.push(name).map_err(|_| CacheError::Memory)?;
        Ok(id)
    }

    // Whether there is such a class.
    pub(crate) fn has(&self, class: ClassId) -> bool
        ensures { result ≡ nat_lt class.0 (length self.now) }
    {
        usize::from(class.0) < self.names.len()
    }
}
