//! Rows as access lists come and go.

ghost use Rattle.std.specs.Prelude.{◌≡◌, ◌≤◌, ◌<◌, ◌++◌, ◌∷◌, [], Bool, None, length};
ghost use Rattle.dots_history.specs.Rows.{acl_of};
ghost use Rattle.installed_filters.specs.Filters.{with_rows, acls_without, acls_without_all, acl_switched, active_by, list_put, acls_by, filters_written};

use crate::filters::InstalledFilters;
use acl_lists::{Acl, AclRow, Activation};
use dots_history::{Change, Entry};

impl InstalledFilters {
    /// For an entry that puts no mitigation: the rows of the lists go that it takes away, and that of the list that it writes,
    /// which is given, comes last. `mitigating` says whether its client has a live mitigation that filters; `acls` are the
    /// lists that its client has before the entry.
    #[tactic(auto, using(crate::proofs::Changes::written_list, crate::proofs::Changes::list_fits, crate::proofs::Changes::no_list))]
    pub fn write(&mut self, entry: &Entry, list: Option<AclRow>, mitigating: bool, acls: &[Acl])
        requires staged { list ≡ list_put entry.now }
        requires room { length (filters_written mitigating acls.now entry.now self.old).acls ≤ self.old.acl_room }
        ensures { self.new ≡ filters_written mitigating acls.now entry.now self.old }
    {
        match list {
            Some(row) => self.set(row, mitigating),
            None => self.take_away(entry, acls),
        }
    }

    /// Puts the row of a list behind the others, in place of that of the same client and name.
    fn set(&mut self, mut row: AclRow, mitigating: bool)
        requires { length (acls_without row.domain row.cuid row.acl.name self.old.acls) < self.old.acl_room }
        ensures { self.new ≡ with_rows self.old self.old.scrubs
            (acls_without row.domain row.cuid row.acl.name self.old.acls ++ acl_switched (active_by mitigating row.acl.activation) row ∷ []) }
    {
        row.active = is_active(mitigating, row.acl.activation);
        self.set_acl(row);
    }

    /// Takes the rows of the lists out that an entry takes away which writes none.
    #[tactic(auto, using(crate::proofs::Changes::drops_list, crate::proofs::Changes::drops_all, crate::proofs::Changes::lists_left, crate::proofs::Changes::never_set))]
    fn take_away(&mut self, entry: &Entry, acls: &[Acl])
        requires { acl_of entry.now.change ≡ None }
        ensures { (mitigating : Bool) → self.new ≡ filters_written mitigating acls.now entry.now self.old }
    {
        match &entry.change {
            Change::DropAcl { name } => self.drop_acl(entry.domain, entry.cuid.bytes(), name),
            Change::Deregister => self.drop_all(entry.domain, entry.cuid.bytes(), acls),
            _ => {}
        }
    }

    /// Takes the rows of these lists of a client out.
    #[tactic(auto, using(crate::proofs::Steps::drop_step, crate::proofs::Steps::drop_end))]
    fn drop_all(&mut self, domain: u16, cuid: &[u8], acls: &[Acl])
        ensures { self.new ≡ with_rows self.old self.old.scrubs (acls_without_all domain cuid.now acls.now self.old.acls) }
    {
        for acl in acls {
            self.drop_acl(domain, cuid, &acl.name);
        }
    }
}

/// Whether a list is active while its client mitigates, or doesn't (RFC 8783, section 7.2).
fn is_active(mitigating: bool, activation: Activation) -> bool
    ensures { result ≡ active_by mitigating activation }
{
    match activation {
        Activation::Immediate => true,
        Activation::WhenMitigating => mitigating,
        Activation::Deactivate => false,
    }
}
