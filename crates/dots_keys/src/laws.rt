//! What the definitions come to: each function's contract is a law, and its body does nothing.

ghost use Rattle.std.specs.Prelude.{◌≡◌, ◌↔◌, ℕ, List, Some, Ok, Result};
ghost use Rattle.cbor_profile.specs.Tree.{Pairs, mapping};
ghost use Rattle.cbor_profile.specs.Valid.{IsSound};
ghost use Rattle.dots_keys.specs.Fields.{Field, fields_of, Ascend};
ghost use Rattle.dots_keys.specs.Meaning.{Means};
ghost use Rattle.dots_keys.specs.declared.reject.Reject.{Reject};
ghost use Rattle.dots_keys.specs.declared.request.Request.{Request};

use cbor_profile::{one_reading, one_spelling};
use coap_message::Message;

/// A message means one request, or one refusal.
pub fn one_meaning(message: &Message<'_>, gateway: bool)
    ensures { (one other : Result Request Reject) → Means message.now gateway one → Means message.now gateway other → one ≡ other }
{
    one_spelling();
    one_reading(message.payload());
}

/// The fields of a map in a valid item are in ascending order of their keys.
pub fn fields_ascend()
    ensures { (pairs : Pairs) (fields : List Field) (under : ℕ) → IsSound (mapping pairs) → fields_of under (mapping pairs) ≡ Ok fields → Ascend fields }
{}
