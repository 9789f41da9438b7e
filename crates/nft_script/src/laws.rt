//! What the definitions come to: the function's contract is a law, and its body does nothing.

ghost use Rattle.std.specs.Prelude.{◌≡◌, ℕ, List};
ghost use Rattle.ip_scope.specs.Prefix.{PrefixValue};
ghost use Rattle.acl_lists.specs.declared.packet.Packet.{Packet};
ghost use Rattle.acl_lists.specs.Fates.{fate_by_rows};
ghost use Rattle.nft_script.specs.declared.timed.TimedRow.{TimedRow};
ghost use Rattle.nft_script.specs.declared.timed.TimedList.{TimedList};
ghost use Rattle.nft_script.specs.Rules.{rules_of, fate_by_rules, rows_in, lists_in};

/// The first rule that matches, in the order of the script, decides as the table does: the first entry that matches, in the active lists; else
/// the first row by falling mid is of the greatest mid of those that scrub the packet.
pub fn first_rule_decides()
    ensures { (prefixes : ℕ → List PrefixValue) (rows : List TimedRow) (lists : List TimedList) (packet : Packet)
        → fate_by_rules (rules_of prefixes rows lists) packet ≡ fate_by_rows prefixes (rows_in rows) (lists_in lists) packet }
{}
