//! What the definitions come to: each function's contract is a law, and its body does nothing.

ghost use Rattle.std.specs.Prelude.{◌≡◌, Result, Ok};
ghost use Rattle.http_cut.specs.Requests.{Request};
ghost use Rattle.data_channel.specs.declared.reject.RestReject.{RestReject};
ghost use Rattle.data_channel.specs.declared.request.RestRequest.{RestRequest};
ghost use Rattle.data_channel.specs.Rest.{Rest};
ghost use Rattle.data_channel.specs.Within.{IsWithin};

/// A message of the data channel means one request, or one refusal.
pub fn one_meaning()
    ensures { (message : Request) (one other : Result RestRequest RestReject) → Rest message one → Rest message other → one ≡ other }
{}

/// Where a message of the data channel is a request, its client has a name, and the alias or the access list that it writes is within this
/// server's bounds.
pub fn what_is_asked_is_within_bounds()
    ensures { (message : Request) (asked : RestRequest) → Rest message (Ok asked) → IsWithin asked }
{}
