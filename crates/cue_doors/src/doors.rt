ghost use Rattle.std.specs.Prelude.{◌≡◌, ◌↔◌, map, Any, IsTrue, IfSome, IfNone, string_bytes};
ghost use Rattle.std.specs.Char.{to_ascii_lowercase};
ghost use Rattle.std.specs.Option.{option_map};
ghost use Rattle.cue_doors.specs.Hosts.{IsOwn, Names};
ghost use Rattle.cue_doors.specs.Requests.{value_of, IsReading, IsForeign, IsForAnother, IsBarred};

use crate::fields::{is_address, is_origin_of, names};
use bytes::Bytes;
use http::Request;

/// The hosts that a site answers for.
#[derive(Drop)]
pub struct Doors {
    /// Names and addresses, without ports. An address of IPv6 is in brackets.
    pub hosts: Vec<String>,
    /// Whether the site answers for every address, since it listens on all.
    pub any_address: bool,
}

/// Why a request is not let in.
#[derive(Clone, Copy, Debug, PartialEq, Eq)]
pub enum DoorRefusal {
    /// It names a host that is not the site's.
    OtherHost,
    /// A browser sent it for a page of another site, and it is no read.
    OtherSite,
}

impl DoorRefusal {
    /// A line for the one who sent the request.
    pub fn line(self) -> &'static [u8] {
        match self {
            DoorRefusal::OtherHost => b"this site does not answer for that host: see --host\n",
            DoorRefusal::OtherSite => b"a web page of another site may not write here\n",
        }
    }
}

impl Doors {
    /// Why a request is not let in, if it is not.
    pub fn bar(&self, request: &Request<Bytes>) -> Option<DoorRefusal>
        ensures some { IfSome result (IsBarred self.now request.now) }
        ensures none { IfNone result ((bar : DoorRefusal) → ¬ IsBarred self.now request.now bar) }
    {
        if self.is_for_another(request) {
            return Some(DoorRefusal::OtherHost);
        }
        if !is_reading(request) && is_foreign(request) {
            return Some(DoorRefusal::OtherSite);
        }
        None
    }

    fn is_for_another(&self, request: &Request<Bytes>) -> bool
        ensures { IsTrue result ↔ IsForAnother self.now request.now }
    {
        match field(request, "host") {
            None => false,
            Some(host) => !self.is_own(host),
        }
    }

    /// Whether a field names a host of the site.
    fn is_own(&self, field: &[u8]) -> bool
        ensures { IsTrue result ↔ IsOwn self.now field.now }
    {
        names_one(&self.hosts, field) || self.any_address && is_address(field)
    }
}

/// Whether a field names one of these hosts.
fn names_one(hosts: &[String], field: &[u8]) -> bool
    ensures { IsTrue result ↔ Any (λ host. Names (string_bytes host) field.now) hosts.now }
{
    for host in hosts {
        if names(host.as_str(), field) {
            return true;
        }
    }
    false
}

/// What the first field of this name has.
pub(crate) fn field<'a>(request: &'a Request<Bytes>, name: &'static str) -> Option<&'a [u8]>
    ensures { option_map (λ value. value.now) result
        ≡ value_of (map to_ascii_lowercase name.now) request.now }
{
    match request.headers().get(name) {
        None => None,
        Some(value) => Some(value.as_bytes()),
    }
}

pub(crate) fn is_reading(request: &Request<Bytes>) -> bool
    ensures { IsTrue result ↔ IsReading request.now }
{
    let method = request.method().as_str();
    method == "GET" || method == "HEAD"
}

/// Whether a browser says that a page of another site sent the request.
fn is_foreign(request: &Request<Bytes>) -> bool
    ensures { IsTrue result ↔ IsForeign request.now }
{
    if field(request, "sec-fetch-site") == Some(b"cross-site".as_slice()) {
        return true;
    }
    let Some(origin) = field(request, "origin") else {
        return false;
    };
    match field(request, "host") {
        None => true,
        Some(host) => !is_origin_of(host, origin),
    }
}
