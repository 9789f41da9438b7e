//! What the definitions come to: each function's contract is a law, and its body does nothing.

ghost use Rattle.std.specs.Prelude.{◌≡◌, Ok};
ghost use Rattle.std.specs.List.{AllByRecursion};
ghost use Rattle.acl_lists.specs.declared.acl.Acl as acls;
ghost use Rattle.acl_lists.specs.declared.alias.Alias as aliases;
ghost use Rattle.ip_scope.specs.Prefix.{IsPrefix};
ghost use Rattle.serde_json.specs.Data.{Data};
ghost use Rattle.list_json.specs.AliasPrinting.{alias_data};
ghost use Rattle.list_json.specs.Aliases.{alias_in};
ghost use Rattle.list_json.specs.ListPrinting.{acl_data};
ghost use Rattle.list_json.specs.Lists.{acl_in};
ghost use Rattle.list_json.specs.Prefixed.{HasPrefixes};
ghost use Rattle.list_json.specs.Within.{IsAliasWithin, IsAclWithin};

/// An alias that a value is, is what its printed value is read as. That its prefixes are prefixes holds of every [`acl_lists::Alias`].
pub fn alias_is_read_again()
    ensures { (d : Data) (alias : aliases.Alias) → AllByRecursion IsPrefix alias.asked.prefixes → alias_in d ≡ Ok alias
        → alias_in (alias_data alias) ≡ Ok alias }
{}

/// An access list that a value is, is what its printed value is read as. That its prefixes are prefixes holds of every
/// [`acl_lists::Acl`].
pub fn acl_is_read_again()
    ensures { (d : Data) (acl : acls.Acl) → AllByRecursion HasPrefixes acl.aces → acl_in d ≡ Ok acl
        → acl_in (acl_data acl) ≡ Ok acl }
{}

/// An alias that a value is has at most 32 prefixes, port ranges and protocols each, at most 8 host names, and names no further alias.
pub fn alias_is_within_bounds()
    ensures { (d : Data) (alias : aliases.Alias) → alias_in d ≡ Ok alias → IsAliasWithin alias }
{}

/// An access list that a value is has at most 64 entries.
pub fn acl_is_within_bounds()
    ensures { (d : Data) (acl : acls.Acl) → acl_in d ≡ Ok acl → IsAclWithin acl }
{}
