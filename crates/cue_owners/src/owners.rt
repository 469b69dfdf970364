ghost use Rattle.std.specs.Prelude.{◌≡◌, ◌↔◌, IsTrue, MatchOption, Any, string_bytes};
ghost use Rattle.cue_owners.specs.Access.{HasAccess, IsKnown, MayWriteTo};
ghost use Rattle.cue_owners.specs.Bearers.{IsBearer};
ghost use Rattle.cue_owners.specs.Grants.{token_of, Reaches};

use crate::bearer::is_bearer;
use crate::grant::{Grant, any_fits};

/// The tokens of a site, and what each may write.
#[derive(Drop)]
pub struct Owners {
    pub(crate) grants: Vec<Grant>,
}

/// What the one who sent a request may write.
#[derive(Clone, Copy, Debug, PartialEq, Eq)]
pub enum Access<'a> {
    /// No token of the file came with it: 401.
    Unknown,
    /// Its token may not write this: 403.
    Barred,
    /// Its token, which is this owner's, may write this.
    Allowed(&'a str),
}

impl Owners {
    /// Whether the one whose field `Authorization` has these bytes may write a target, as `commons`
    /// or `layers/web`. Where there is no such field, pass no bytes.
    pub fn access(&self, field: &[u8], target: &[u8]) -> Access<'_>
        ensures { HasAccess self.now field.now target.now result }
    {
        let grants = self.grants.as_slice();
        match owner_for(grants, field, target) {
            Some(owner) => Access::Allowed(owner),
            None => match is_known(grants, field) {
                true => Access::Barred,
                false => Access::Unknown,
            },
        }
    }

    /// Whether a field `Authorization` of these bytes has a token of the file.
    pub fn knows(&self, field: &[u8]) -> bool
        ensures { IsTrue result ↔ IsKnown self.now field.now }
    {
        is_known(self.grants.as_slice(), field)
    }

    /// Whether it has a token that may write a target.
    pub fn lets_write(&self, field: &[u8], target: &[u8]) -> bool
        ensures { IsTrue result ↔ MayWriteTo self.now field.now target.now }
    {
        match owner_for(self.grants.as_slice(), field, target) {
            Some(_) => true,
            None => false,
        }
    }
}

/// Whether a field has this token, which may write a target.
fn may_write(grant: &Grant, field: &[u8], target: &[u8]) -> bool
    ensures { IsTrue result ↔ (IsBearer (token_of grant.now) field.now × Reaches target.now grant.now) }
{
    is_bearer(field, &grant.token) && any_fits(&grant.patterns, target)
}

/// Whose token a field has that may write a target.
fn owner_for<'a>(grants: &'a [Grant], field: &[u8], target: &[u8]) -> Option<&'a str>
    ensures { MatchOption result
        (¬ Any (λ grant. IsBearer (token_of grant) field.now × Reaches target.now grant) grants.now)
        (λ name. Any (λ grant. IsBearer (token_of grant) field.now × Reaches target.now grant × (string_bytes grant.owner ≡ name.now)) grants.now) }
{
    for grant in grants {
        if may_write(grant, field, target) {
            return Some(grant.owner.as_str());
        }
    }
    None
}

/// Whether a field has a token of these.
fn is_known(grants: &[Grant], field: &[u8]) -> bool
    ensures { IsTrue result ↔ Any (λ grant. IsBearer (token_of grant) field.now) grants.now }
{
    for grant in grants {
        if is_bearer(field, &grant.token) {
            return true;
        }
    }
    false
}
