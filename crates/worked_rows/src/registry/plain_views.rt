//! One list for all clients.

ghost use Rattle.std.specs.Prelude.{◌≤◌, length};

use coap_observe::Views;

/// What there is to see, whoever looks.
#[derive(Drop)]
pub struct PlainViews<'a> {
    pub list: &'a [(u32, u8)],
    ghost few: { length list.now ≤ 64 },
}

impl Views for PlainViews<'_> {
    ghost lists = { λ views domain cuid mid. views.list.now };

    fn view(&self, _: u16, _: &[u8], _: Option<u32>, place: usize) -> Option<(u32, u8)> {
        self.list.get(place).copied()
    }
}
