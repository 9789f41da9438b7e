//! What the definitions come to: each function's contract is a law, and its body does nothing.

ghost use Rattle.std.specs.Prelude.{◌≡◌, ◌↔◌, ℕ, List, Some};
ghost use Rattle.dots_keys.specs.Paths.{Resource, path_of, resource_at};

/// A resource is that of a path exactly where the path is its own.
pub fn resource_of_a_path()
    ensures { (segments : List (List ℕ)) (resource : Resource) → (resource_at segments ≡ Some resource) ↔ (segments ≡ path_of resource) }
{}
