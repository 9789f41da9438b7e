//! What the definitions come to: each function's contract is a law, and its body does nothing.
ghost use Rattle.std.specs.Prelude.{◌≡◌, ℕ, List, Some, IsTrue, ◌↔◌};
ghost use Rattle.std.specs.Net.Text.{hex_groups_text};
ghost use Rattle.std.specs.Str.{IsAscii};
ghost use Rattle.ip_scope.specs.Laws.{SharesAddress, IsCovered, IsCanonical};
ghost use Rattle.ip_scope.specs.Prefix.{PrefixValue, IsPrefix, inside, meets};
ghost use Rattle.ip_scope.specs.PrefixText.{Reads, prefix_text};
ghost use Rattle.ip_scope.specs.PrefixReader.{prefix_in};

/// A prefix is inside another exactly where each of its addresses is one of the other.
pub fn inside_is_covered()
    ensures { (a b : PrefixValue) → IsPrefix a → IsPrefix b → (IsTrue (inside a b) ↔ IsCovered a b) }
{}

/// Two prefixes meet exactly where they share an address.
pub fn meets_is_shared()
    ensures { (a b : PrefixValue) → IsPrefix a → IsPrefix b → (IsTrue (meets a b) ↔ SharesAddress a b) }
{}

/// A canonical text is that of one prefix.
pub fn one_prefix_to_a_text()
    ensures { (a b : PrefixValue) → IsPrefix a → IsPrefix b → prefix_text a ≡ prefix_text b → a ≡ b }
{}

/// A prefix is that of a text exactly where the text writes it.
pub fn prefix_of_a_text()
    ensures { (text : List ℕ) (prefix : PrefixValue) → (prefix_in text ≡ Some prefix) ↔ Reads text prefix }
{}

/// The canonical text of a prefix is ASCII, and so UTF-8.
pub fn texts_are_ascii()
    ensures { (prefix : PrefixValue) → IsPrefix prefix → IsAscii (prefix_text prefix) }
{}

/// The groups of an IPv6 address are shortened as RFC 5952, section 4.2 wants it.
pub fn groups_are_canonical()
    ensures { (groups : List ℕ) → IsCanonical groups (hex_groups_text groups) }
{}
