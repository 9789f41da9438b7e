//! Laws of the spellings.

ghost use Rattle.std.specs.Prelude.{◌≡◌, ◌⊎◌, ℕ, List, ◌++◌};
ghost use Rattle.cbor_profile.specs.declared.fault.CborFault.{CborFault};
ghost use Rattle.cbor_profile.specs.Tree.{Tree};
ghost use Rattle.cbor_profile.specs.Canon.{canon};
ghost use Rattle.cbor_profile.specs.Valid.{IsValid};
ghost use Rattle.cbor_profile.specs.Spelling.{Spells};
ghost use Rattle.cbor_profile.specs.Breaking.{Breaks};

/// No spelling is the front of another: bytes that begin with an item begin with no other.
pub fn one_spelling()
    ensures { (s t : Tree) (a b x y : List ℕ) → Spells a s 0 → Spells b t 0 → a ++ x ≡ b ++ y → (a ≡ b) × (s ≡ t) × (x ≡ y) }
{}

/// The deterministic encoding of a valid item is one of its spellings.
pub fn encoding_spells()
    ensures { (tree : Tree) → IsValid tree → Spells (canon tree) tree 0 }
{}

/// Either a front of the bytes is spelled, or they break with one fault, which no spelled front has.
pub fn one_reading(bytes: &[u8])
    ensures either { ((front : List ℕ) × (rest : List ℕ) × (tree : Tree) × (bytes.now ≡ front ++ rest) × Spells front tree 0)
        ⊎ ((fault : CborFault) × Breaks bytes.now 0 fault) }
    ensures one_fault { (f g : CborFault) → Breaks bytes.now 0 f → Breaks bytes.now 0 g → f ≡ g }
    ensures not_both { (front rest : List ℕ) (tree : Tree) (fault : CborFault) → bytes.now ≡ front ++ rest → Spells front tree 0 → Breaks bytes.now 0 fault → ⊥ }
    ensures valid { (tree : Tree) → Spells bytes.now tree 0 → IsValid tree }
{
    let _bytes = bytes.len();
}
