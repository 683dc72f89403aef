//! Names of labels.
ghost use Rattle.std.specs.Prelude.{◌≡◌, IfOk};
ghost use Rattle.std.proofs.Common.{ap};
ghost use Rattle.std.specs.Cmp.Lexicographic.{bytes_decides, nat_list_eq_equiv};
ghost use Rattle.std.specs.Str.{bytes_eq};
ghost use Rattle.std.specs.Hash as fed;
ghost use Rattle.mx_source.specs.Names.{name_bytes};

use indexmap::Equivalent;
use mx_io::Memory;
use smallvec::SmallVec;
use std::alloc::Global;

/// How long a name may be to lie in the table of labels itself. A longer one has a block of memory.
const SHORT_NAME_BYTES: usize = 16;

/// The name of a label.
#[derive(Debug, PartialEq, Eq, Hash, Drop)]
pub struct Name {
    bytes: SmallVec<u8, SHORT_NAME_BYTES>,
}

impl Name {
    /// The name of exactly these bytes.
    ///
    /// # Errors
    ///
    /// `Memory` where there is no room for them.
    pub fn new(alloc: Global, bytes: &[u8]) -> Result<Name, Memory>
        ensures { IfOk result (λ name. name_bytes name ≡ bytes.now) }
    {
        match SmallVec::from_slice(alloc, bytes) {
            Ok(bytes) => Ok(Name { bytes }),
            Err(_) => Err(Memory),
        }
    }

    /// Its bytes.
    pub fn bytes(&self) -> &[u8]
        ensures { result.now ≡ name_bytes self.now }
    {
        self.bytes.as_slice()
    }
}

/// A name is looked up by its bytes.
impl Equivalent<Name> for &[u8] {
    ghost equivalent = { λ q k. bytes_eq q.now (name_bytes k) };

    ghost respects_hash = { λ q k h. ap (fed.slice fed.u8) ((bytes_decides q.now (name_bytes k)).0 h) };

    ghost respects_eq = { λ q x y. nat_list_eq_equiv.congr q.now (name_bytes x) (name_bytes y) };

    fn equivalent(&self, key: &Name) -> bool {
        *self == key.bytes()
    }
}
