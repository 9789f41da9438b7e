ghost use Rattle.std.specs.Prelude.{◌≡◌, ◌<◌, ◌^◌, ◌-◌, ◌+◌};
ghost use Rattle.filter_table.specs.TableRows.{is_of_client, number_after};

use acl_lists::AclRow;
use dots_lists::Text;

/// The row of an access list with its place in the table.
#[derive(Drop)]
pub struct PlacedAcl {
    /// Where it stands among the list rows: they are in order of place.
    pub place: u64,
    pub row: AclRow,
}

/// Whether a row of this domain and cuid is of the client.
pub fn is_of_client(domain: u16, cuid: &[u8], row_domain: u16, row_cuid: &Text) -> bool
    ensures { result ≡ is_of_client domain cuid.now row_domain row_cuid.now }
{
    row_domain == domain && row_cuid.bytes() == cuid
}

/// The number of a row behind one of this place and number: the same where their places are equal, and else the next.
pub fn number_after(last: u64, number: u64, place: u64) -> u64
    requires { number + 1 < 2 ^ 64 }
    ensures { result ≡ number_after last number place }
{
    if place == last { number } else { number + 1 }
}
