//! What there is to observe.

ghost use Rattle.std.specs.Prelude.{◌≡◌, ℕ, List, Option, ◌≤◌, length, slice_get};

/// The live mitigations of clients, as observers see them.
pub trait Views {
    /// The mid and the status of each live mitigation of a client, which is a domain and a cuid, or of the one of this mid,
    /// in the order in which they were accepted.
    ghost lists: { Self → ℕ → List ℕ → Option ℕ → List (ℕ × ℕ) };

    /// The mid and the status at this place of the list; None exactly past its end, which is at most 64. Takes no memory.
    fn view(&self, domain: u16, cuid: &[u8], mid: Option<u32>, place: usize) -> Option<(u32, u8)>
        ensures value { result ≡ slice_get (lists self.now domain cuid.now mid) place }
        ensures few { length (lists self.now domain cuid.now mid) ≤ 64 };
}
