//! Laws of names.
ghost use Rattle.std.specs.Prelude.{◌≡◌, ◌↔◌, IsTrue};
ghost use Rattle.mx_source.specs.declared.name.Name.{Name};
ghost use Rattle.mx_source.specs.contracts.name.NamePartialEq.TheImpl.{eq-value};
ghost use Rattle.mx_source.specs.Names.{name_bytes};

/// `==` holds of two names exactly where their bytes are the same.
pub fn names_are_their_bytes()
    ensures { (a b : Name) → IsTrue ((eq-value).it a b) ↔ (name_bytes a ≡ name_bytes b) }
{}
