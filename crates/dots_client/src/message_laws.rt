//! What a server reads of a client's requests: each function's contract is a law, and its body does nothing.

ghost use Rattle.std.specs.Prelude.{◌≡◌, ◌<◌, ◌^◌, ℕ, ℤ, List, IsTrue, Result, false};
ghost use Rattle.acl_lists.specs.declared.asked.Asked.{Asked};
ghost use Rattle.cbor_profile.specs.Valid.{IsValid};
ghost use Rattle.dots_keys.specs.declared.reject.Reject.{Reject};
ghost use Rattle.dots_keys.specs.Operations.{is_client_name};
ghost use Rattle.dots_keys.specs.declared.request.Request.{Request};
ghost use Rattle.dots_keys.specs.Meaning.{Means};
ghost use Rattle.reply_bodies.specs.Requests.{request_tree};
ghost use Rattle.dots_client.specs.Asked.{CanAsk, asked_for, withdrawn};
ghost use Rattle.dots_client.specs.Grants.{IsGranted};
ghost use Rattle.dots_client.specs.Requests.{asking, withdrawing};

use cbor_profile::encoding_spells;
use coap_message::Message;
use dots_keys::laws::one_meaning;

/// A request for a mitigation means what was asked, by its client's name, which has no slash, and with its mid. Without a prefix, a
/// name and an alias it means a refusal. The item is valid wherever [`asking`](crate::asking) wrote the request.
pub fn asking_means()
    ensures { (number mid : ℕ) (cuid : List ℕ) (asked : Asked) (lifetime : ℤ)
        → IsTrue (is_client_name cuid) → mid < 2 ^ 32 → CanAsk asked → IsGranted lifetime → IsValid (request_tree asked lifetime)
        → Means (asking number cuid mid asked lifetime) false (asked_for cuid mid asked lifetime) }
{
    encoding_spells();
}

/// A withdrawal means one of this mid.
pub fn withdrawing_means()
    ensures { (number mid : ℕ) (cuid : List ℕ) → IsTrue (is_client_name cuid) → mid < 2 ^ 32
        → Means (withdrawing number cuid mid) false (withdrawn cuid mid) }
{}

/// So a server reads a message that a client wrote as what it asked, and as nothing else.
pub fn written_is_read(message: &Message<'_>)
    ensures asked { (number mid : ℕ) (cuid : List ℕ) (asked : Asked) (lifetime : ℤ) (answer : Result Request Reject)
        → IsTrue (is_client_name cuid) → mid < 2 ^ 32 → CanAsk asked → IsGranted lifetime → IsValid (request_tree asked lifetime)
        → message.now ≡ asking number cuid mid asked lifetime → Means message.now false answer → answer ≡ asked_for cuid mid asked lifetime }
    ensures withdrawn { (number mid : ℕ) (cuid : List ℕ) (answer : Result Request Reject)
        → IsTrue (is_client_name cuid) → mid < 2 ^ 32
        → message.now ≡ withdrawing number cuid mid → Means message.now false answer → answer ≡ withdrawn cuid mid }
{
    asking_means();
    withdrawing_means();
    one_meaning(message, false);
}
